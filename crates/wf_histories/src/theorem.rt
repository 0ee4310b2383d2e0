//! Theorems about processes of `wfarm node`. Each call does nothing.
ghost use Rattle.wf_histories.specs.Advance.{ActAdvances, NothingAdvances, RunAdvances, StartAdvances};
ghost use Rattle.wf_histories.specs.Answers.{AnswersAreOfNodes};
ghost use Rattle.wf_histories.specs.Carried.{SentAreCarried};
ghost use Rattle.wf_histories.specs.Joiners.{CutFarmsAreKept, FoldersJoinByLearning, JoinedFoldersMayVote, JoinersHaveLearned};
ghost use Rattle.wf_histories.specs.Joining.{ActJoins, CallsShowEmptied, FirstJoins, MoreIsSent, NextJoins, NextVotes, RunJoins};
ghost use Rattle.wf_histories.specs.Killed.{AnswersByThenAreOfNodes, ClientsGetEqually, EarlierAnswersAreOfNodes, WholeIsWithinActs};
ghost use Rattle.wf_histories.specs.Lifetimes.{LifetimesAnswerAlike, LifetimesAnswerMapsAlike, LifetimesAreTimeline, LifetimesNeverDiffer, LifetimesNeverGoBack, LifetimesShareHistory};
ghost use Rattle.wf_histories.specs.LivesAdvance.{FirstStarts, FolderTakesPlace, LifeGoesOn, NothingLives};
ghost use Rattle.wf_histories.specs.Replicas.{ReplicasAgree};
ghost use Rattle.wf_histories.specs.Responses.{FarmsGetEqually};
ghost use Rattle.wf_histories.specs.Theorems.{NodesAgree, NodesAreOneFarm, ProcessesShowLives, ProcessesShowWhatCame};
ghost use Rattle.wf_histories.specs.Told.{NodesReplyByFarm, PortsTell, ReplicasAreTold, ReplicasReplyByFarm, WholeNodesReplyByFarm};

use wf_actor::{processes_respond_alike, runs_receive_their_own};
use wf_execution::{
    a_compared_node_goes_on, lists_grow, processes_agree, replicas_agree, replicas_answer_alike,
};
use wf_journal::records_are_read_one_way;
use wf_node_folder::farm_files_are_kept;
use wf_rejoin_guard::learners_may_rejoin;
use wf_replacement::{published_lists_grow, timelines_agree, timelines_answer_alike};
use wf_replica::{a_replica_never_goes_back, what_is_heard_is_reported, what_is_learned_is_served};
use wf_sockets::Connection;
use wf_tape::Tape;
use wf_wire::only_posted_messages_come;

/// Of each run that a process was ever in, there are acts by which it came about, as its logs have
/// them.
pub fn processes_show_lives<T: Tape>()
    ensures { ProcessesShowLives T.Tape }
{}

/// Whatever a process was ever given from a peer, in any of its runs, came on a connection from
/// that peer, as its logs have it.
pub fn processes_show_what_came<T: Tape>()
    ensures { ProcessesShowWhatCame T.Tape }
{}

/// Of messages that came on connections from peers, where all bytes that had come are a beginning
/// of what was sent on connections, into which only what had been returned by then was put: each of
/// them had been returned by then.
///
/// The first premise is met by [`processes_show_what_came`]; the second is TCP's promise, of which
/// no call speaks.
pub fn sent_messages_are_carried()
    ensures { SentAreCarried }
{
    only_posted_messages_come();
}

/// Processes of `wfarm node`, each node's one after the other on its folder, are a farm of
/// `wf_execution`, whether they returned, were killed or lost their power, and however often they
/// opened their tapes anew.
///
/// What a process has of `HasServed` [`wf_node_command::run`] returns; from there
/// [`node_processes_go_on`] leads to `AreNodeProcesses`, and `a_farm_goes_on` of `wf_execution` to
/// `IsFarm` of what was before.
pub fn nodes_are_one_farm<T: Tape>()
    ensures { NodesAreOneFarm T.Tape }
{
    // A tape stands for one durable state. Within a process what was compared ties a run to the one
    // before it.
    records_are_read_one_way();
    a_compared_node_goes_on::<T>();
    runs_receive_their_own();
    // What came from peers had been returned before, by TCP's promise.
    sent_messages_are_carried();
}

/// The headline of `wfarm node`: there is one history, of which each list that a node ever
/// published is a beginning; no two differ under one sequence, none goes back, and equal requests
/// get equal responses.
///
/// The premises are met as those of [`nodes_are_one_farm`] are.
pub fn nodes_agree<T: Tape>()
    ensures { NodesAgree T.Tape }
{
    nodes_are_one_farm::<T>();
    processes_agree::<T>();
    lists_grow::<T>();
    processes_respond_alike::<T>();
}

/// Each client of a process of the farm that ended by itself was answered by one of the values that
/// its node had.
///
/// `HasMadeAll` holds of whatever [`wf_node_command::run`] returned.
pub fn answers_are_of_nodes<T: Tape>()
    ensures { AnswersAreOfNodes T.Tape }
{}

/// Each client that a process of the farm, killed or not, had answered by a moment within the acts
/// that it made was answered by one of the values that its node had: so where one client was
/// answered within them, each client before it was, too. A process that made all its acts is within
/// them itself.
///
/// `IsWithinActs` is met by the last clause where the process wasn't killed; of one that was it is
/// said, as its acts are.
pub fn killed_answers_are_of_nodes<T: Tape>()
    ensures moment { AnswersByThenAreOfNodes T.Tape }
    ensures earlier { EarlierAnswersAreOfNodes T.Tape }
    ensures whole { WholeIsWithinActs T.Tape }
{}

/// Two clients of processes of the farm, each answered by a moment within the acts that its process
/// made, that ask the map service the same get equal bytes, a 503 for a failed allocation aside:
/// as [`nodes_agree`] has it, but nothing is presupposed of the values by which they were answered.
///
/// `WasAnsweredByThen` is met by what [`wf_node_command::run`] returns of its clients.
pub fn clients_get_equally<T: Tape>()
    ensures { ClientsGetEqually T.Tape }
{
    nodes_agree::<T>();
}

/// The premises can be met, one thing after the other: where nothing has started they hold, and
/// they still do where a process starts on what the last one left, takes the next act of its run,
/// by which it hears of a peer what was sent before, or goes on in its next run.
pub fn node_processes_go_on<T: Tape>()
    ensures nothing { NothingAdvances T.Tape }
    ensures start { StartAdvances T.Tape }
    ensures act { ActAdvances T.Tape }
    ensures run { RunAdvances T.Tape }
{}

/// What replicas of such a farm have learned, at any moments, are beginnings of its one history,
/// and replicas answer alike, with one another and with the nodes, if all that they ever heard was
/// told by lists of nodes and of replicas of the farm.
///
/// `AreFarm` is met by [`nodes_are_one_farm`], `HasServed` by `run` of `wf_replica_command`, and
/// `AreReported` by [`replicas_are_told`].
pub fn replicas_are_of_the_farm<N: Tape, R: Tape>()
    ensures { ReplicasAgree N.Tape R.Tape }
{
    what_is_learned_is_served::<N>();
    replicas_agree::<N>();
    replicas_answer_alike::<N>();
    a_replica_never_goes_back();
}

/// Two clients that ask the map service the same get equal bytes, whichever nodes and replicas of
/// the farm answered them, where these had equally many maps or are asked for one map; a 503 for a
/// failed allocation aside. It is the whole response over HTTP.
///
/// `AreFarm` is met by [`nodes_are_one_farm`]; what is said of a replica's client by what `run` of
/// `wf_replica_command` returns, and by [`replicas_are_told`].
pub fn replicas_respond_alike<N: Tape, R: Tape>()
    ensures { FarmsGetEqually N.Tape R.Tape }
{
    replicas_are_of_the_farm::<N, R>();
}

/// All that replicas have heard was told by lists of nodes and of replicas of the farm, if each
/// connection on which a reply came led to a readers' port of theirs ([`readers_ports_tell`]):
/// processes of a replica one after the other on its folder, of which the first began with no map.
///
/// `HasServed` is met by `run` of `wf_replica_command`; that a process reads a beginning of what
/// the one before it had, by `open` of `wf_replica`'s `Follower`, of a tape that keeps what was
/// written.
pub fn replicas_are_told<N, R: Tape>()
    ensures { ReplicasAreTold N R.Tape }
{
    what_is_heard_is_reported::<N>();
    what_is_learned_is_served::<N>();
}

/// All that readers of a node's process were replied, by a moment within the acts that it made,
/// was by lists of the farm, as [`killed_answers_are_of_nodes`] has it of clients; and so was what
/// readers of a replica were, if lists of the farm told all that it heard ([`replicas_are_told`]).
///
/// The exchanges are those that [`wf_node_command::run`] and `run` of `wf_replica_command` return.
pub fn ports_reply_by_farm<N: Tape, R: Tape>()
    ensures moment { NodesReplyByFarm N.Tape }
    ensures whole { WholeNodesReplyByFarm N.Tape }
    ensures replica { ReplicasReplyByFarm N R.Tape }
{
    what_is_learned_is_served::<N>();
}

/// A readers' port told what came on a replica's connection, if that led there, and all that the
/// port replied was by lists of the farm ([`ports_reply_by_farm`]).
///
/// That what had come at one end is a beginning of what had been sent at the other is TCP's
/// promise, of which no call speaks; `IsReplied` is met by `always_replied` of `wf_readers_port`.
pub fn readers_ports_tell<N, C: Connection>()
    ensures { PortsTell N C.Connection }
{}

/// The processes of a folder that joins have learned what the next one on it reads of its tape:
/// they were given nothing but what says what is published, and returned nothing but questions.
///
/// `HaveJoined` is met by [`joiners_go_on`].
pub fn joiners_have_learned<T: Tape>()
    ensures { JoinersHaveLearned T.Tape }
{
    // As processes that vote are runs of an execution, so are these.
    records_are_read_one_way();
    a_compared_node_goes_on::<T>();
    runs_receive_their_own();
    sent_messages_are_carried();
}

/// Where the file `joins` was emptied its folder may vote, with whatever the next process on it
/// read of the tape, if what that read of the file `farm` says no less than what was put there.
///
/// `HasEmptied` is met by the calls that [`wf_node_command::run`] made ([`joiners_go_on`]), which
/// say that nothing put there says less than before; `IsFarmKept` by [`cut_farms_are_kept`].
pub fn joined_folders_may_vote<T: Tape>()
    ensures { JoinedFoldersMayVote T.Tape }
{
    // What was read of the tape was compared with the file `farm`.
    records_are_read_one_way();
}

/// Where the next process read of the file `farm` what a power cut may leave of it after the calls
/// of the one before, it says no less than what that had put there last: also where starts came in
/// between that ended with an error, or were killed, and that read what was there.
pub fn cut_farms_are_kept<T: Tape>()
    ensures { CutFarmsAreKept T.Tape }
{
    farm_files_are_kept();
}

/// So a folder has joined by learning, as `wf_rejoin_guard` wants it of each process that is
/// replaced, if its answers are true.
///
/// Both records are met as those of [`joiners_have_learned`] and [`joined_folders_may_vote`] are.
pub fn folders_join_by_learning<T: Tape>()
    ensures { FoldersJoinByLearning T.Tape }
{
    joiners_have_learned::<T>();
    joined_folders_may_vote::<T>();
}

/// The premises about the processes of a folder that joins can be met, one thing after the other:
/// where one starts on an empty tape they hold, and they still do where it takes the next act of
/// its run, by which it hears what was sent before, goes on in its next run, ends, and another one
/// starts on what it left; where that need not join, the folder has joined. That the file `joins`
/// was emptied, the calls show.
pub fn joiners_go_on<T: Tape>()
    ensures first { FirstJoins T.Tape }
    ensures act { ActJoins T.Tape }
    ensures run { RunJoins T.Tape }
    ensures more { MoreIsSent T.Tape }
    ensures next { NextJoins T.Tape }
    ensures votes { NextVotes T.Tape }
    ensures calls { CallsShowEmptied T.Tape }
{}

/// Processes of nodes, of which some lost their disks and folders joined in the place of these, are
/// a timeline of `wf_replacement`, in which each folder that took another's place had joined by
/// learning; and what a node lived as it held there, in the same order.
///
/// `AreLifetimes` is met by [`lifetimes_go_on`].
pub fn replaced_nodes_are_a_timeline<T: Tape>()
    ensures { LifetimesAreTimeline T.Tape }
{
    records_are_read_one_way();
    a_compared_node_goes_on::<T>();
    runs_receive_their_own();
    sent_messages_are_carried();
    folders_join_by_learning::<T>();
}

/// The headline of `wfarm node` where disks are lost: there is one history, of which each list that
/// a node ever published is a beginning, on whichever folder; no two have different definitions
/// under one sequence, none goes back, and equal queries have equal answers.
///
/// `AreLifetimes` is met by [`lifetimes_go_on`].
pub fn replaced_nodes_agree<T: Tape>()
    ensures history { LifetimesShareHistory T.Tape }
    ensures definition { LifetimesNeverDiffer T.Tape }
    ensures grow { LifetimesNeverGoBack T.Tape }
    ensures answer { LifetimesAnswerAlike T.Tape }
    ensures map { LifetimesAnswerMapsAlike T.Tape }
{
    replaced_nodes_are_a_timeline::<T>();
    learners_may_rejoin::<T>();
    timelines_agree::<T>();
    published_lists_grow::<T>();
    timelines_answer_alike::<T>();
}

/// The premises about nodes of which some lose their disks can be met, one thing after the other:
/// where no node has started they hold, and they still do where one goes on, which hears what was
/// sent before; so does one whose first process starts, or of which a folder that had joined takes
/// the place of a lost one, on which a process starts.
pub fn lifetimes_go_on<T: Tape>()
    ensures nothing { NothingLives T.Tape }
    ensures goes_on { LifeGoesOn T.Tape }
    ensures first { FirstStarts T.Tape }
    ensures replaced { FolderTakesPlace T.Tape }
{}
