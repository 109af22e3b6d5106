//! From the fields of a line to its record.
ghost use Rattle.std.specs.Prelude.{◌≡◌, ◌≤◌, true, length, IfSome};
ghost use Rattle.std.specs.List.{list_all};
ghost use Rattle.std.specs.Option.{option_map};
ghost use Rattle.lines.specs.Fields.{circuit_in, kind_in, digits_in, read_fields};
ghost use Rattle.lines.specs.Layout.{circuit_byte, circuit_of, is_circuit, filled as filled_up, digit_of, value_from, number_of, number_within};

use crate::fields::{Field, Fields};
use crate::kind::Kind;
use crate::record::Record;

/// The greatest limit, in milliamperes.
const MOST_LIMIT: u32 = 2_000_000;

const LIMIT_DIGITS: usize = 7;

/// The greatest chain.
const MOST_CHAIN: u32 = 64;

const CHAIN_DIGITS: usize = 2;

fn is_circuit_byte(b: u8) -> bool
    ensures { result ≡ circuit_byte b }
{
    matches!(b, b'A'..=b'Z' | b'0'..=b'9' | b'-')
}

fn all_circuit_bytes(bytes: &[u8]) -> bool
    ensures { result ≡ list_all circuit_byte bytes.now }
{
    bytes.iter().all(|b| is_circuit_byte(*b))
}

/// Whether the bytes are a circuit: one to twelve lawful bytes.
fn is_circuit(bytes: &[u8]) -> bool
    ensures value { result ≡ is_circuit bytes.now }
    ensures short { result ≡ true → length bytes.now ≤ 12 }
{
    (1..=12).contains(&bytes.len()) && all_circuit_bytes(bytes)
}

/// The bytes, with zero bytes behind them.
fn filled(bytes: &[u8]) -> [u8; 12]
    requires { length bytes.now ≤ 12 }
    ensures { result ≡ filled_up bytes.now }
{
    let mut circuit = [0u8; 12];
    circuit[0..bytes.len()].copy_from_slice(bytes);
    circuit
}

// No `then`: its closure has to know that the bytes are few, which the check does not find of it.
/// The bytes as a circuit of twelve bytes, if they are one.
fn circuit_of(bytes: &[u8]) -> Option<[u8; 12]>
    ensures { result ≡ option_map filled_up (circuit_of bytes.now) }
{
    if is_circuit(bytes) {
        Some(filled(bytes))
    } else {
        None
    }
}

/// The circuit that a field says.
fn circuit_in(field: Field) -> Option<[u8; 12]>
    ensures { result ≡ option_map filled_up (circuit_in field.entry) }
{
    match field {
        Field::Circuit(bytes) => circuit_of(bytes),
        _ => None,
    }
}

// Not one function with `circuit_in`: case and value differ, and only the form of the match is alike.
/// The kind that a field of one letter says.
fn kind_in(field: Field) -> Option<Kind>
    ensures { result ≡ kind_in field.entry }
{
    match field {
        Field::Kind([letter]) => Kind::try_from(*letter).ok(),
        _ => None,
    }
}

/// The value of a digit.
fn digit(b: u8) -> Option<u32>
    ensures value { result ≡ digit_of b }
    ensures small { IfSome result (λ d. d ≤ 9) }
{
    char::from(b).to_digit(10)
}

// Not `parse`, which takes a sign too.
/// The value of at most nine digits.
fn digits_value(bytes: &[u8]) -> Option<u32>
    requires { length bytes.now ≤ 9 }
    ensures { result ≡ value_from 0 bytes.now }
{
    let mut value = 0u32;
    for b in bytes {
        let d = digit(*b)?;
        value = value * 10 + d;
    }
    Some(value)
}

/// The value of one to `most` digits.
fn number_of(bytes: &[u8], most: usize) -> Option<u32>
    requires { most ≤ 9 }
    ensures { result ≡ number_of most bytes.now }
{
    if (1..=most).contains(&bytes.len()) {
        digits_value(bytes)
    } else {
        None
    }
}

/// The number from `least` to `most` that a field of one to `digits` digits says.
fn number_in(field: Field, digits: usize, least: u32, most: u32) -> Option<u32>
    requires { digits ≤ 9 }
    ensures value { result ≡ digits_in (number_within digits least most) field.entry }
    ensures within { IfSome result (λ n. n ≤ most) }
{
    let Field::Digits(bytes) = field else {
        return None;
    };
    number_of(bytes, digits).filter(|n| (least..=most).contains(n))
}

/// The record that the fields say, if each is lawful.
pub(crate) fn record_of(fields: Fields) -> Option<Record>
    ensures { result ≡ read_fields fields.entry }
{
    let circuit = circuit_in(fields.circuit.field)?;
    let kind = kind_in(fields.kind.field)?;
    let limit = number_in(fields.limit.field, LIMIT_DIGITS, 0, MOST_LIMIT)?;
    let chain = number_in(fields.chain.field, CHAIN_DIGITS, 1, MOST_CHAIN)? as u8;
    Some(Record {
        circuit,
        kind,
        limit,
        chain,
    })
}
