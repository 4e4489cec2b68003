// What a card says to a challenge, and what cards hold.

#[derive(Clone, Copy, PartialEq, Eq)]
pub enum CardOutcome {
    // No card is in.
    Out,
    // The challenge's MAC is not the network's.
    Wrong,
    // The sequence number is not above the card's own; AUTS tells that to the network.
    Stale {
        auts: [u8; 14],
    },
    // The network is proven: the answer RES, and the keys CK and IK.
    Good {
        res: [u8; 16],
        ck: [u8; 16],
        ik: [u8; 16],
    },
}

// What the recorded card says to this challenge.
#[derive(Clone, Copy, PartialEq, Eq)]
pub struct CardRow {
    pub rand: [u8; 16],
    pub autn: [u8; 16],
    pub outcome: CardOutcome,
}

// A card that says what its rows say.
#[derive(Clone, Copy)]
pub struct RecordedCard<'a> {
    pub(crate) rows: &'a [CardRow],
}

// The test card of TS 34.108, which makes everything from its key by exclusive or.
#[derive(Clone, Copy)]
pub struct TestCard {
    pub(crate) key: [u8; 16],
    // The highest sequence number that it has accepted.
    pub(crate) sequence: [u8; 6],
}
