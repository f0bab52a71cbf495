// Numbers of any size, constants, operations, operands, arguments, and a key with a value of each kind, written into a lent buffer at a place:
// put and fill as in the crate put.

#![tactic(auto)]

ghost use Rattle.std.specs.Prelude.{◌∷◌, [], ◌++◌, ◌+◌, ◌≤◌, ◌<◌, length};
ghost use Rattle.table.specs.declared.Operand.TheVariants.{Const};
ghost use Rattle.text.specs.Number.{digits};
ghost use Rattle.text.specs.Value.{spell_operand, spell_variable, op_word};
ghost use Rattle.text.specs.Format.{name_of};
ghost use Rattle.put.specs.Put.{Put, PutField, ValueAt, FieldAt};
ghost use Rattle.put.specs.Lists.{list_text};
ghost use Rattle.put_fields.specs.DigitLaws.{last_two, last_four};
ghost use Rattle.put_fields.specs.Args.{args_text};

use put::{
    fill_byte, fill_list, fill_small, fill_text, fill_variable, put_byte, put_filled, put_small,
    put_text,
};
use table::{Args, Op, Operand};

// The last two digits of a number, zeros among them.
fn fill_two(out: &mut [u8], at: usize, n: u32) -> usize
    requires { (at + 2 ≤ length out.old) × (n < 100) }
    ensures { Put 2 out.old at (last_two n) out.new result }
{
    let a = fill_byte(out, at, b'0' + (n / 10) as u8);
    fill_byte(out, a, b'0' + (n % 10) as u8)
}

// The last four digits of a number, zeros among them.
fn fill_four(out: &mut [u8], at: usize, n: u32) -> usize
    requires { (at + 4 ≤ length out.old) × (n < 10000) }
    ensures { Put 4 out.old at (last_four n) out.new result }
{
    let a = fill_two(out, at, n / 100);
    fill_two(out, a, n % 100)
}

// The decimal digits of a number below 10,000.
fn fill_few(out: &mut [u8], at: usize, n: u32) -> usize
    requires { (at + 4 ≤ length out.old) × (n < 10000) }
    ensures { Put 4 out.old at (digits n) out.new result }
{
    if n < 10 {
        return fill_byte(out, at, b'0' + n as u8);
    }
    if n < 100 {
        return fill_two(out, at, n);
    }
    if n < 1000 {
        let a = fill_byte(out, at, b'0' + (n / 100) as u8);
        return fill_two(out, a, n % 100);
    }
    fill_four(out, at, n)
}

// The decimal digits of a number of 32 bits.
fn fill_number(out: &mut [u8], at: usize, n: u32) -> usize
    requires { at + 12 ≤ length out.old }
    ensures { Put 10 out.old at (digits n) out.new result }
{
    if n < 10000 {
        return fill_few(out, at, n);
    }
    let q = n / 10000;
    if q < 10000 {
        let a = fill_few(out, at, q);
        return fill_four(out, a, n % 10000);
    }
    let a = fill_few(out, at, q / 10000);
    let b = fill_four(out, a, q % 10000);
    fill_four(out, b, n % 10000)
}

fn put_few(out: &mut [u8], at: usize, n: u64) -> usize
    requires { (at ≤ 1999999990) × (n < 10000) }
    ensures { Put (length (digits n)) out.old at (digits n) out.new result }
{
    put_filled::<4, _>(out, at, |t| fill_few(t, 0, n as u32))
}

fn put_four(out: &mut [u8], at: usize, n: u64) -> usize
    requires { (at ≤ 1999999990) × (n < 10000) }
    ensures { Put 4 out.old at (last_four n) out.new result }
{
    put_filled::<4, _>(out, at, |t| fill_four(t, 0, n as u32))
}

// The decimal digits of any number.
pub fn put_number(out: &mut [u8], at: usize, n: u64) -> usize
    requires { at + length (digits n) ≤ 1999999990 }
    ensures { Put (length (digits n)) out.old at (digits n) out.new result }
{
    if n < 10000 {
        return put_few(out, at, n);
    }
    let next = put_number(out, at, n / 10000);
    put_four(out, next, n % 10000)
}

// An operand's constant.
pub fn fill_constant(out: &mut [u8], at: usize, c: i32) -> usize
    requires { at + 13 ≤ length out.old }
    ensures { Put 11 out.old at (spell_operand (Const c)) out.new result }
{
    if c < 0 {
        let a = fill_byte(out, at, b'-');
        return fill_number(out, a, c.unsigned_abs());
    }
    fill_number(out, at, c.unsigned_abs())
}

pub fn put_constant(out: &mut [u8], at: usize, c: i32) -> usize
    requires { ValueAt at }
    ensures { Put 11 out.old at (spell_operand (Const c)) out.new result }
{
    put_filled::<13, _>(out, at, |t| fill_constant(t, 0, c))
}

pub fn fill_operand(out: &mut [u8], at: usize, o: Operand) -> usize
    requires { at + 13 ≤ length out.old }
    ensures { Put 11 out.old at (spell_operand o) out.new result }
{
    match o {
        Operand::Var(v) => {
            let a = fill_byte(out, at, b'v');
            fill_small(out, a, v)
        }
        Operand::Const(c) => fill_constant(out, at, c),
    }
}

pub fn put_operand_value(out: &mut [u8], at: usize, o: Operand) -> usize
    requires { ValueAt at }
    ensures { Put 11 out.old at (spell_operand o) out.new result }
{
    put_filled::<13, _>(out, at, |t| fill_operand(t, 0, o))
}

pub fn fill_op(out: &mut [u8], at: usize, o: Op) -> usize
    requires { at + 3 ≤ length out.old }
    ensures { Put 3 out.old at (op_word o) out.new result }
{
    match o {
        Op::Add => fill_text(out, at, b"add"),
        Op::Sub => fill_text(out, at, b"sub"),
        Op::And => fill_text(out, at, b"and"),
        Op::Or => fill_text(out, at, b"or"),
        Op::Xor => fill_text(out, at, b"xor"),
        Op::Shr => fill_text(out, at, b"shr"),
        Op::Lt => fill_text(out, at, b"lt"),
        Op::Eq => fill_text(out, at, b"eq"),
    }
}

pub fn put_op_value(out: &mut [u8], at: usize, o: Op) -> usize
    requires { ValueAt at }
    ensures { Put 3 out.old at (op_word o) out.new result }
{
    put_filled::<3, _>(out, at, |t| fill_op(t, 0, o))
}

pub fn put_list_value(out: &mut [u8], at: usize, m: u32) -> usize
    requires { ValueAt at }
    ensures { Put 86 out.old at (list_text m) out.new result }
{
    put_filled::<96, _>(out, at, |t| fill_list(t, 0, m))
}

// A comma and a further argument.
fn fill_further(out: &mut [u8], at: usize, v: u8) -> usize
    requires { at + 4 ≤ length out.old }
    ensures { Put 4 out.old at (44 ∷ spell_variable (name_of v)) out.new result }
{
    let a = fill_byte(out, at, b',');
    fill_variable(out, a, v)
}

pub fn fill_args(out: &mut [u8], at: usize, x: Args) -> usize
    requires { (at + 16 ≤ length out.old) × (x.len ≤ 4) }
    ensures { Put 16 out.old at (args_text x) out.new result }
{
    if x.len == 0 {
        return fill_text(out, at, b"none");
    }
    let a = fill_variable(out, at, x.a0);
    if x.len == 1 {
        return a;
    }
    let b = fill_further(out, a, x.a1);
    if x.len == 2 {
        return b;
    }
    let c = fill_further(out, b, x.a2);
    if x.len == 3 {
        return c;
    }
    fill_further(out, c, x.a3)
}

// A key and a value of each kind.
pub fn put_count(out: &mut [u8], at: usize, key: &[u8], v: u8) -> usize
    requires { (FieldAt at) × (length key.now ≤ 64) }
    ensures { PutField (length key.now + 3) out.old at key.now (digits v) out.new result }
{
    let a = put_text(out, at, key);
    put_small(out, a, v)
}

pub fn put_size(out: &mut [u8], at: usize, key: &[u8], n: usize) -> usize
    requires { (FieldAt at) × (length key.now ≤ 64) }
    ensures { PutField (length key.now + 20) out.old at key.now (digits n) out.new result }
{
    let a = put_text(out, at, key);
    put_number(out, a, n as u64)
}

pub fn put_list(out: &mut [u8], at: usize, key: &[u8], v: u32) -> usize
    requires { (FieldAt at) × (length key.now ≤ 64) }
    ensures { PutField (length key.now + 86) out.old at key.now (list_text v) out.new result }
{
    let a = put_text(out, at, key);
    put_list_value(out, a, v)
}

// A list that ends its line.
pub fn put_last_list(out: &mut [u8], at: usize, key: &[u8], to: u32) -> usize
    requires { (FieldAt at) × (length key.now ≤ 64) }
    ensures { PutField (length key.now + 87) out.old at key.now (list_text to ++ (10 ∷ [])) out.new result }
{
    let a = put_list(out, at, key, to);
    put_byte(out, a, b'\n')
}
