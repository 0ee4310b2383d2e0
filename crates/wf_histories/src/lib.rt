//! The histories of a farm whose nodes are processes of `wfarm node`: what all of them ever publish
//! and respond, across restarts.
//!
//! **Model.** A process (`NodeProcess`, `specs/Nodes.antt`) is what `wfarm node` returned
//! (`HasServed` of `wf_node_command`), with acts by which each of its runs came about
//! (`specs/Runs.antt`); one that was killed made only the first of them. The processes of a node
//! are on one folder, one after the other: each read of the tape what the one before it left. What
//! a node was given from a peer came on a connection, of which the process logged the bytes that
//! had come by then (`specs/Carried.antt`).
//!
//! **Promises**, over any kind of tape, of all values that the nodes ever had
//! (`specs/Theorems.antt`, `specs/Replicas.antt`):
//! - There are such acts, of each run that a process was ever in ([`processes_show_lives`]), and
//!   what it was given in it from peers came on their connections ([`processes_show_what_came`]).
//! - What came on connections of which all bytes had been sent before had been returned before
//!   ([`sent_messages_are_carried`]).
//! - With what was before, such processes are a farm of `wf_execution`, whose processes held
//!   exactly these values ([`nodes_are_one_farm`]).
//! - So there is one history, of which each list that a node ever published is a beginning; no two
//!   have different definitions under one sequence; no list loses a definition, across restarts
//!   too; and equal requests to the map service get equal bytes, a 503 for a failed allocation
//!   aside ([`nodes_agree`]). Clients of a process that ended by itself were answered by such
//!   values ([`answers_are_of_nodes`], `specs/Answers.antt`); and so was each client that a process
//!   had answered, before it was killed, by a moment at which it had lived by the first of the acts
//!   that it made ([`killed_answers_are_of_nodes`], `specs/Killed.antt`). So such clients that ask
//!   alike get equal bytes ([`clients_get_equally`]).
//! - What replicas learn of such a farm is a beginning of that history, and they answer alike
//!   ([`replicas_are_of_the_farm`]), their clients and those of nodes with equal bytes
//!   ([`replicas_respond_alike`]), if all that they heard was told by lists of it; and so it was
//!   where their connections led to readers' ports of the farm ([`replicas_are_told`],
//!   [`readers_ports_tell`], `specs/Told.antt`), whose replies are by lists of it
//!   ([`ports_reply_by_farm`]).
//! - A folder that joins in the place of a lost one (`specs/Joiners.antt`) has learned what its
//!   next process reads of the tape ([`joiners_have_learned`]), and where it ceased to join, that
//!   process may vote with it ([`joined_folders_may_vote`]), if what that read of the file `farm`
//!   says no less than what was put there, as whatever a power cut leaves of it does, also where
//!   starts failed in between ([`cut_farms_are_kept`]). So it has joined as `wf_rejoin_guard` wants
//!   it ([`folders_join_by_learning`]).
//! - So nodes of which some lost their disks, and folders joined in the place of these
//!   (`specs/Lifetimes.antt`), are a timeline of `wf_replacement`
//!   ([`replaced_nodes_are_a_timeline`]): there is one history, no list loses a definition, on
//!   whichever folder, and equal queries get equal answers ([`replaced_nodes_agree`]).
//!
//! **Premises** (`AreNodeProcesses`). Of bytes: a process read of its tape what the one before it
//! left, or what starts that didn't come to serve made of that; the first of a node, what an empty
//! tape stands for, or what an earlier farm left that has ended (`wfarm init --from`). Of
//! connections, TCP's promise: there is an order of time in which, when a node was given a message
//! of a peer, all bytes that had come on the connection were a beginning of what was sent on some
//! connection, into which only messages were put that had been returned by then. Of a step within
//! which a process was killed: it was given what each step requires, of which no clause speaks
//! then. What a process leaves is said as `wf_execution` says it, which a durable tape gives. All
//! of it can be met, one thing after the other ([`node_processes_go_on`], `specs/Advance.antt`). Of
//! a folder that joins: what its file `joins` said is of its node and was answered; the file `farm`
//! says no less when the next process reads it, which no clause says of what is put there. What is
//! said of its processes can be met, too ([`joiners_go_on`], `specs/Joining.antt`). Of nodes that
//! lose their disks (`AreLifetimes`): all began on empty tapes, nothing ran on a folder that was
//! lost, each that took its place had joined by then, and no node was given a question of one that
//! joins, which is no event of a timeline, unless a node had asked the same by then
//! ([`lifetimes_go_on`], `specs/LivesAdvance.antt`).
//!
//! **Doesn't.** It opens no file and no socket, and no process of the program depends on it.
#![tactic(auto)]

mod theorem;

pub use theorem::{
    answers_are_of_nodes, clients_get_equally, cut_farms_are_kept, folders_join_by_learning,
    joined_folders_may_vote, joiners_go_on, joiners_have_learned, killed_answers_are_of_nodes,
    lifetimes_go_on, node_processes_go_on, nodes_agree, nodes_are_one_farm, ports_reply_by_farm,
    processes_show_lives, processes_show_what_came, readers_ports_tell, replaced_nodes_agree,
    replaced_nodes_are_a_timeline, replicas_are_of_the_farm, replicas_are_told,
    replicas_respond_alike, sent_messages_are_carried,
};
