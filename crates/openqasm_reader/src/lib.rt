// What stands at a place of an OpenQASM text, and the reader, which keeps the text and how far it has been read together (02,
// ticket 4).
// Believe: specs/Items, which the definition of an import uses; what that means is said without it.
// No theorem beyond the contracts.
// Called by the import.
#![tactic(auto)]

ghost use Rattle.std.specs.Prelude.{◌+◌, ◌≤◌, ◌<◌, ◌^◌, ◌≡◌, get_or, drop};
ghost use Rattle.openqasm_reader.specs.Items.{is_digit, digits_in, number_in, ccx_item, before, between, behind};
ghost use Rattle.openqasm_reader.specs.Items.{one_number, two_numbers, three_numbers, item_in};
ghost use Rattle.openqasm_reader.specs.Bounds.{Bounded};

use rules::gates::{BX, BZ, CCX, CNOT, H, MEAS, S, T, X, Z};
use words::byte_at;

// The kinds of items are the gates by their numbers, and these: a declaration of an input, as a listing has its kind; the name of an
// output. Numbers and no enum, for put_entry of openqasm_parts writes the kind of an item into the listing as it is.
pub const BIT_ITEM: usize = 128;

pub const QUBIT_ITEM: usize = 129;

pub const OUTPUT_ITEM: usize = 130;

// No item. A kind and no Option, for item_in and the theorem nothing_read have this kind where no item begins; and callers ask for
// the kinds that they want, of which this is none.
pub const NO_ITEM: usize = 255;

// A declaration, a gate or the name of an output: its kind, its numbers, and how many bytes it has. That these are small (Bounded) stands in
// each contract and in no ghost field: the definition item_in builds items, and would have to prove it there.
#[derive(Drop)]
pub struct Item {
    pub kind: usize,
    pub first: usize,
    pub second: usize,
    pub third: usize,
    pub length: usize,
}

// A number of one digit or two, and how many digits it has.
#[derive(Drop)]
struct Number {
    value: usize,
    digits: usize,
}

// The text, and how far it has been read. Callers use read_item, with plain parameters.
#[derive(Drop)]
pub struct Reader<'a> {
    pub text: &'a [u8],
    pub at: usize,
}

// Is the byte a digit, 48 to 57?
#[tactic(auto, using(std::proofs::lemmas::Bool::Decides::nat_tests))]
fn is_digit(byte: u8) -> bool
    ensures { result ≡ is_digit byte }
{
    byte.is_ascii_digit()
}

// The number at a place.
fn number_at(text: &[u8], at: usize) -> Number
    requires { at + 1 < 2 ^ 64 }
    ensures value { result.value ≡ number_in (drop at text.now) }
    ensures digits { result.digits ≡ digits_in (drop at text.now) }
    ensures value_bound { (result.value < 4096) × (result.digits ≤ 2) }
{
    let first = byte_at(text, at).saturating_sub(b'0') as usize;
    let next = byte_at(text, at + 1);
    if is_digit(next) {
        return Number {
            value: 10 * first + next.saturating_sub(b'0') as usize,
            digits: 2,
        };
    }
    Number {
        value: first,
        digits: 1,
    }
}

// An item with one number, with so many bytes before it and behind it. It is no twin of the next two: those differ in how many
// numbers they read, and where the next one stands follows from the digits of the last. That the place is far from the greatest number
// is asked of five private functions and stands in no field of Reader: a Reader may stand at any place, and item_at learns it there.
fn one_number(text: &[u8], at: usize, kind: usize, prefix: usize, suffix: usize) -> Item
    requires at_bound { (at + 64 < 2 ^ 64) × (kind < 256) × (prefix ≤ 9) × (suffix ≤ 5) }
    requires prefix_value { (prefix ≡ before kind) × (suffix ≡ behind kind) }
    ensures { (result ≡ one_number kind (drop at text.now)) × Bounded result }
{
    let number = number_at(text, at + prefix);
    Item {
        kind,
        first: number.value,
        second: 0,
        third: 0,
        length: prefix + number.digits + suffix,
    }
}

// An item with two, with so many bytes before the first and between them, and 5 behind the second.
fn two_numbers(text: &[u8], at: usize, kind: usize, prefix: usize, middle: usize) -> Item
    requires at_bound { (at + 64 < 2 ^ 64) × (kind < 256) × (prefix + middle ≤ 17) }
    requires prefix_value { (prefix ≡ before kind) × (middle ≡ between kind) × (5 ≡ behind kind) }
    ensures { (result ≡ two_numbers kind (drop at text.now)) × Bounded result }
{
    let first_place = at + prefix;
    let first = number_at(text, first_place);
    let second_place = first_place + first.digits + middle;
    let second = number_at(text, second_place);
    Item {
        kind,
        first: first.value,
        second: second.value,
        third: 0,
        length: prefix + first.digits + middle + second.digits + 5,
    }
}

// A CCX, with three: 5 bytes stand before each of them and behind the last.
fn three_numbers(text: &[u8], at: usize) -> Item
    requires { at + 64 < 2 ^ 64 }
    ensures { (result ≡ three_numbers ccx_item (drop at text.now)) × Bounded result }
{
    let first_place = at + 5;
    let first = number_at(text, first_place);
    let next_place = first_place + first.digits + 5;
    let second = number_at(text, next_place);
    let third_place = next_place + second.digits + 5;
    let third = number_at(text, third_place);
    Item {
        kind: CCX,
        first: first.value,
        second: second.value,
        third: third.value,
        length: 5 + first.digits + 5 + second.digits + 5 + third.digits + 5,
    }
}

// What begins with c: a bit register, a CCX or a CNOT, by its second byte.
#[tactic(auto, unfolding(crate::specs::Items::before, crate::specs::Items::between, crate::specs::Items::behind))]
fn bit_register_or_gate(text: &[u8], at: usize) -> Item
    requires { (at + 64 < 2 ^ 64) × (get_or text.now at 0 ≡ 99) }
    ensures { (result ≡ item_in (drop at text.now)) × Bounded result }
{
    match byte_at(text, at + 1) {
        b'r' => one_number(text, at, BIT_ITEM, 6, 5),
        b'c' => three_numbers(text, at),
        _ => two_numbers(text, at, CNOT, 4, 5),
    }
}

// A gate on a Bit and a Qubit: its name, behind the `if`, says which.
#[tactic(auto, unfolding(crate::specs::Items::before, crate::specs::Items::between, crate::specs::Items::behind))]
fn controlled_gate(text: &[u8], at: usize) -> Item
    requires { (at + 64 < 2 ^ 64) × (get_or text.now at 0 ≡ 105) }
    ensures { (result ≡ item_in (drop at text.now)) × Bounded result }
{
    let bit = number_at(text, at + 4);
    if byte_at(text, at + 9 + bit.digits) == b'x' {
        return two_numbers(text, at, BX, 4, 8);
    }
    two_numbers(text, at, BZ, 4, 8)
}

// The item at a place of a text, by its first byte.
#[tactic(auto, using(crate::proofs::Laws::Items::inside), unfolding(crate::specs::Items::before, crate::specs::Items::between, crate::specs::Items::behind))]
pub fn item_at(text: &[u8], at: usize) -> Item
    ensures { (result ≡ item_in (drop at text.now)) × Bounded result }
{
    match byte_at(text, at) {
        b'h' => one_number(text, at, H, 3, 5),
        b'x' => one_number(text, at, X, 3, 5),
        b'z' => one_number(text, at, Z, 3, 5),
        b's' => one_number(text, at, S, 3, 5),
        b't' => one_number(text, at, T, 3, 5),
        b'c' => bit_register_or_gate(text, at),
        b'm' => two_numbers(text, at, MEAS, 9, 8),
        b'i' => controlled_gate(text, at),
        b'q' => two_numbers(text, at, QUBIT_ITEM, 6, 11),
        b' ' => one_number(text, at, OUTPUT_ITEM, 2, 0),
        _ => Item {
            kind: NO_ITEM,
            first: 0,
            second: 0,
            third: 0,
            length: 0,
        },
    }
}

// A reader of a text at a place. Functions and no methods: docs/DEMANDS.md has them for what 01 asks of a reader.
pub fn reader_at<'a>(text: &'a [u8], at: usize) -> Reader<'a>
    ensures { (result.text ≡ text.entry) × (result.at ≡ at) }
{
    Reader { text, at }
}

// The item where the reader stands.
pub fn next_item<'a>(reader: Reader<'a>) -> Item
    ensures { (result ≡ item_in (drop reader.entry.at reader.entry.text.now)) × Bounded result }
{
    item_at(reader.text, reader.at)
}

// The item at a place of a text, read through a reader.
pub fn read_item(text: &[u8], at: usize) -> Item
    ensures { (result ≡ item_in (drop at text.now)) × Bounded result }
{
    next_item(reader_at(text, at))
}
