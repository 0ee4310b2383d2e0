//! One node of the farm: acceptor, proposer and learner over its tape.
//!
//! Model: a `Node` is its tape, whether it is halted, its number, the number of nodes, and its
//! stored and volatile state as data (`specs/Node.antt`); `stored_of` and `volatile_of` map these
//! to wf_model's. An image of a tape stands for a durable state if its records fold to it
//! (`specs/Images.antt`).
//!
//! Promises, of a durable tape: a node opens as the fold of its records, with no proposal and no
//! leadership. A step is the transition of wf_model's step table at this node, and returns exactly
//! its messages. Before it returns them, the transition's record is on the tape, and every image
//! stands for the new durable state. If the tape fails, no message is returned, and each image
//! stands for the old durable state or the new one. When its tape is shortened, every image stands
//! for the durable state, whatever happens. When a node moves to another tape, every image of that
//! one is from before, or stands for the durable state. Of every tape: a step is rejected iff the
//! table rejects it, and then changes nothing. Allocation failure changes nothing, and a node that
//! moves keeps its state. A node whose tape failed is halted, and makes no more steps.
//!
//! Not here: sending messages, and other nodes. That a file is durable is an assumption.
#![tactic(auto)]

mod acceptor_inputs;
mod compaction;
mod comparison;
mod fault;
mod learner_inputs;
mod machine;
mod node;
mod open;
mod proposer_inputs;
mod relocation;
mod reply;
mod step;
mod stored_part;
mod tape_writes;

pub use fault::NodeFault;
pub use node::Node;
pub use step::Input;
