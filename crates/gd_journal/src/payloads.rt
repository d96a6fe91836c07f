//! The payloads of a file, as they are read.
ghost use Rattle.std.specs.Prelude.{◌≡◌};

use std::marker::Model;

/// The bytes of a payload. Contracts see the list of them.
#[derive(Debug, Drop)]
pub struct PayloadBytes {
    bytes: Vec<u8>,
}

impl Model for PayloadBytes {
    ghost use Rattle.std.specs.Prelude.{ℕ, List};

    ghost Value = { List ℕ };

    ghost view = { λ p. p.bytes.items };
}

impl From<Vec<u8>> for PayloadBytes {
    ghost from_gives = { λ bytes p. p ≡ bytes.items };

    fn from(bytes: Vec<u8>) -> PayloadBytes {
        PayloadBytes { bytes }
    }
}

impl PayloadBytes {
    /// The bytes.
    pub fn as_slice(&self) -> &[u8]
        ensures { result.now ≡ self.now }
    {
        self.bytes.as_slice()
    }

    /// The bytes, without taking memory.
    pub fn into_vec(self) -> Vec<u8>
        ensures { result.items ≡ self }
    {
        self.bytes
    }
}

/// A payload, and the offset of its record's gate.
#[derive(Debug, Drop)]
pub struct Payload {
    pub offset: u64,
    pub bytes: PayloadBytes,
}

/// Payloads in the order of their records. Contracts see the list of them.
#[derive(Debug, Drop)]
pub struct PayloadList {
    payloads: Vec<Payload>,
}

impl Model for PayloadList {
    ghost use Rattle.std.specs.Prelude.{List};
    ghost use Rattle.gd_journal.specs.declared.payloads.Payload.{Payload};

    ghost Value = { List Payload };

    ghost view = { λ l. l.payloads.items };
}

impl From<Vec<Payload>> for PayloadList {
    ghost from_gives = { λ payloads l. l ≡ payloads.items };

    fn from(payloads: Vec<Payload>) -> PayloadList {
        PayloadList { payloads }
    }
}

impl PayloadList {
    /// The payloads.
    pub fn as_slice(&self) -> &[Payload]
        ensures { result.now ≡ self.now }
    {
        self.payloads.as_slice()
    }

    /// The payloads, without taking memory.
    pub fn into_vec(self) -> Vec<Payload>
        ensures { result.items ≡ self }
    {
        self.payloads
    }
}

/// What a file holds: its payloads up to the first damaged record, and the offset of that record's
/// gate, if there is one.
#[derive(Debug, Drop)]
pub struct Payloads {
    pub list: PayloadList,
    pub damaged: Option<u64>,
}
