//! The line record: one circuit of a sector.
ghost use Rattle.std.specs.Prelude.{◌≡◌, length, replicate};

use crate::kind::Kind;

/// What a line says of a circuit. Any contents go; the reader gives only lawful ones.
#[derive(Clone, Copy, Debug, PartialEq, Eq, PartialOrd, Ord)]
pub struct Record {
    /// The circuit's bytes, filled up with zero bytes.
    pub circuit: [u8; 12],
    pub kind: Kind,
    /// The converter's limit in milliamperes.
    pub limit: u32,
    /// The interlock chain.
    pub chain: u8,
    ghost twelve: { length circuit ≡ 12 },
}

impl Record {
    /// What a row may hold before a line is read into it.
    pub fn blank() -> Record
        ensures { (result.circuit ≡ replicate 12 0) × (result.kind ≡ Kind.Dipole) × (result.limit ≡ 0) × (result.chain ≡ 0) }
    {
        Record {
            circuit: [0; 12],
            kind: Kind::Dipole,
            limit: 0,
            chain: 0,
        }
    }
}
