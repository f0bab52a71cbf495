// Signed 32-bit values: what each operation of a node gives.

#![tactic(auto)]

ghost use Rattle.std.specs.Prelude.{◌≡◌, ◌+ℤ◌, ◌-ℤ◌, bit_and, bit_or, bit_xor, int_lt};
ghost use Rattle.std.specs.Int.{w32};
ghost use Rattle.std.proofs.Common.{of_z, to_z};
ghost use Rattle.table.specs.Values.{wrap, on_bits, shr, truth, eq_z, apply};
ghost use Rattle.values.specs.Numbered.{operation};

use table::Op;

// The two's complement bits of a value.
pub fn bits_of(x: i32) -> u32
    ensures { result ≡ of_z w32 x }
{
    x.cast_unsigned()
}

// The value that has these bits.
pub fn of_bits(n: u32) -> i32
    ensures { result ≡ to_z w32 n }
{
    n.cast_signed()
}

pub fn add(a: i32, b: i32) -> i32
    ensures { result ≡ wrap (a +ℤ b) }
{
    a.wrapping_add(b)
}

pub fn sub(a: i32, b: i32) -> i32
    ensures { result ≡ wrap (a -ℤ b) }
{
    a.wrapping_sub(b)
}

pub fn and(a: i32, b: i32) -> i32
    ensures { result ≡ on_bits bit_and a b }
{
    a & b
}

pub fn or(a: i32, b: i32) -> i32
    ensures { result ≡ on_bits bit_or a b }
{
    a | b
}

pub fn xor(a: i32, b: i32) -> i32
    ensures { result ≡ on_bits bit_xor a b }
{
    a ^ b
}

// The arithmetic shift.
pub fn shr(a: i32, b: i32) -> i32
    ensures { result ≡ shr a b }
{
    a >> (b.cast_unsigned() % 32)
}

pub fn lt(a: i32, b: i32) -> i32
    ensures { result ≡ truth (int_lt a b) }
{
    i32::from(a < b)
}

pub fn eq(a: i32, b: i32) -> i32
    ensures { result ≡ truth (eq_z a b) }
{
    i32::from(a == b)
}

// What an operation gives for two values.
#[tactic(auto, using(crate::proofs::Signed::signed), unfolding(table::specs::Values::apply))]
pub fn compute(op: Op, a: i32, b: i32) -> i32
    ensures { result ≡ apply op a b }
{
    match op {
        Op::Add => add(a, b),
        Op::Sub => sub(a, b),
        Op::And => and(a, b),
        Op::Or => or(a, b),
        Op::Xor => xor(a, b),
        Op::Shr => shr(a, b),
        Op::Lt => lt(a, b),
        Op::Eq => eq(a, b),
    }
}

// The operation that a number stands for.
#[tactic(auto, unfolding(crate::specs::Numbered::operation))]
pub fn operation(n: u8) -> Op
    ensures { result ≡ operation n }
{
    match n {
        0 => Op::Add,
        1 => Op::Sub,
        2 => Op::And,
        3 => Op::Or,
        4 => Op::Xor,
        5 => Op::Shr,
        6 => Op::Lt,
        _ => Op::Eq,
    }
}

// The operation by its number.
pub fn apply(op: u8, a: i32, b: i32) -> i32
    ensures { result ≡ apply (operation op) a b }
{
    compute(operation(op), a, b)
}
