//! A line of the file: its fields, and its record.
ghost use Rattle.std.specs.Prelude.{◌≡◌, ◌+◌, ◌^◌, ◌<◌, length, MatchOption};

use crate::cut::cut_at;
use crate::fields::{Field, Fields, Placed};
use crate::parsing::record_of;
use crate::record::Record;

const TAB: u8 = 9;

/// A line without its end, and where in the file it begins.
#[derive(Clone, Copy)]
pub(crate) struct Line<'a> {
    pub(crate) bytes: &'a [u8],
    pub(crate) place: usize,
    ghost fits: { place + length bytes.now < 2 ^ 64 },
}

impl<'a> Line<'a> {
    ghost use Rattle.lines.specs.Fields.{FourAt, NotFour};
    ghost use Rattle.lines.specs.Layout.{record_of};

    /// The line's fields; none unless three tabs part it.
    pub(crate) fn fields(self) -> Option<Fields<'a>>
        ensures { MatchOption result (NotFour self.entry.bytes.now) (λ f. FourAt self.entry.bytes.now self.entry.place f) }
    {
        let (circuit, after_circuit) = cut_at(self.bytes, TAB)?;
        let (kind, after_kind) = cut_at(after_circuit, TAB)?;
        let (limit, chain) = cut_at(after_kind, TAB)?;
        if let Some(_) = cut_at(chain, TAB) {
            return None;
        }
        let kind_place = self.place + circuit.len() + 1;
        let limit_place = kind_place + kind.len() + 1;
        let chain_place = limit_place + limit.len() + 1;
        Some(Fields {
            circuit: Placed {
                place: self.place,
                field: Field::Circuit(circuit),
            },
            kind: Placed {
                place: kind_place,
                field: Field::Kind(kind),
            },
            limit: Placed {
                place: limit_place,
                field: Field::Digits(limit),
            },
            chain: Placed {
                place: chain_place,
                field: Field::Digits(chain),
            },
        })
    }

    /// The record that the line says.
    pub(crate) fn to_record(self) -> Option<Record>
        ensures { result ≡ record_of self.entry.bytes.now }
    {
        record_of(self.fields()?)
    }
}
