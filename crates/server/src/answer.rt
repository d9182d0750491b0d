// What a call answers.
use frame::Fault;

// What a call answers: how many bytes of the frame it took, how long the reply is, and any fault.
// One form for frames not taken up, refused and accepted: the first took 0 bytes and have no reply.
#[derive(Clone, Copy, PartialEq, Eq, Debug)]
pub struct Answer {
    pub taken: usize,
    pub length: usize,
    pub fault: Option<Fault>,
}
