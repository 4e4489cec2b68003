// What processing a packet gives.
#[derive(Clone, Copy, Debug, PartialEq, Eq)]
pub enum Verdict<F> {
    GoOn,
    Granted,
    // The request is not proven to come from the network, for this reason.
    Unproven(F),
}

#[derive(Clone, Copy, Debug, PartialEq, Eq)]
pub struct Weighing<F> {
    pub verdict: Verdict<F>,
    // The reply stands in the buffer that was lent: this interface allocates nothing.
    pub reply_len: usize,
}
