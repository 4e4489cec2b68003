// The rows of the scripted method, and what it holds.
#[derive(Clone, Copy, Debug, PartialEq, Eq)]
pub enum Outcome {
    GoOn,
    // Granted, with the 128 bytes of the store from this place on.
    Grant { at: usize },
    Refuse,
}

// What the method says to a packet with this identifier.
#[derive(Clone, Copy, Debug, PartialEq, Eq)]
pub struct Row {
    pub identifier: u8,
    pub outcome: Outcome,
}

// Why the scripted method finds a request unproven.
#[derive(Clone, Copy, Debug, PartialEq, Eq)]
pub enum ScriptedFault {
    NoRow,
    OutsideStore,
}

// A method that says what its rows say: a stand-in for rehearsals and tests.
#[derive(Clone, Copy)]
pub struct Scripted<'a> {
    pub(crate) rows: &'a [Row],
    pub(crate) store: &'a [u8],
    pub(crate) block: Option<[u8; 128]>,
}
