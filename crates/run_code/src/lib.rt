// A table decoded into numbers, for a run: node n of procedure p is row 32 p + n of two arrays.
// Kinds: 0 none, 1 start, 2 set, 3 test, 4 read, 5 call, 6 wait, 7 signal, 8 send, 9 receive, 10 assert, 11 out, 12 return. `bytes_of` and `words_of` (specs/Code.antt) say what stands where.

#![tactic(auto)]

ghost use Rattle.std.specs.Prelude.{◌≡◌, ℕ, ◌<◌, ◌≤◌, get_or};
ghost use Rattle.table.specs.Mask.{pick};
ghost use Rattle.table.specs.Table.{node_in};
ghost use Rattle.values.specs.Numbered.{op_number};
ghost use Rattle.run_code.specs.Ready.{Placed, Ready};
ghost use Rattle.run_code.specs.Code.{var_of, const_of, rows_of, decoded_of, bytes_of, words_of, queue_caps, Coded, Worded, takes_of, no_code, no_words, Laid, Room};

use table::{Node, Op, Operand, Proc, Queue, Table};
pub use values::operation;

// A node's row of bytes and its row of words.
#[derive(Clone, Copy)]
pub struct Decoded {
    pub bytes: [u8; 8],
    pub words: [u32; 4],
}

#[tactic(auto, unfolding(values::specs::Numbered::op_number))]
fn op_number(o: Op) -> u8
    ensures { result ≡ op_number o }
{
    match o {
        Op::Add => 0,
        Op::Sub => 1,
        Op::And => 2,
        Op::Or => 3,
        Op::Xor => 4,
        Op::Shr => 5,
        Op::Lt => 6,
        Op::Eq => 7,
    }
}

// The variable that an operand is, 255 if it is a constant.
fn var(o: Operand) -> u8
    ensures { result ≡ var_of o }
{
    match o {
        Operand::Var(v) => v,
        Operand::Const(_) => 255,
    }
}

// The bits of the constant that an operand is, 0 if it is a variable.
fn constant(o: Operand) -> u32
    ensures { result ≡ const_of o }
{
    match o {
        Operand::Var(_) => 0,
        Operand::Const(c) => values::bits_of(c),
    }
}

fn plain(bytes: [u8; 8], to: u32) -> Decoded
    ensures { result ≡ rows_of bytes 0 0 to 0 }
{
    Decoded {
        bytes,
        words: [0, 0, to, 0],
    }
}

fn computing(bytes: [u8; 8], a: Operand, b: Operand, yes: u32, no: u32) -> Decoded
    ensures { result ≡ rows_of bytes (const_of a) (const_of b) yes no }
{
    Decoded {
        bytes,
        words: [constant(a), constant(b), yes, no],
    }
}

#[tactic(auto, unfolding(crate::specs::Code::bytes_of, crate::specs::Code::consts_of, crate::specs::Ready::Placed, table::specs::Table::parts))]
fn code_of(x: Node, keep: u32, caps: &[u8; 8]) -> Decoded
    requires { Placed x }
    ensures { result ≡ decoded_of caps.now keep x }
{
    match x {
        Node::Absent => plain([0, 0, 0, 0, 0, 0, 0, 0], 0),
        Node::Start { to } => plain([1, 0, 0, 0, 0, 0, 0, tosses::straight(to, keep)], to),
        Node::Set {
            var: v,
            op,
            a,
            b,
            to,
        } => computing(
            [
                2,
                op_number(op),
                var(a),
                var(b),
                v,
                0,
                0,
                tosses::straight(to, keep),
            ],
            a,
            b,
            to,
            0,
        ),
        Node::Test { op, a, b, yes, no } => computing(
            [
                3,
                op_number(op),
                var(a),
                var(b),
                0,
                0,
                tosses::straight(no, keep),
                tosses::straight(yes, keep),
            ],
            a,
            b,
            yes,
            no,
        ),
        Node::Read { var: v, to } => plain([4, 0, 0, 0, v, 0, 0, tosses::straight(to, keep)], to),
        Node::Call { callee, args, to } => plain(
            [
                5,
                callee,
                args.len,
                args.a0,
                args.a1,
                args.a2,
                args.a3,
                tosses::straight(to, keep),
            ],
            to,
        ),
        Node::Wait { sem, to } => plain([6, sem, 0, 0, 0, 0, 0, tosses::straight(to, keep)], to),
        Node::Signal { sem, to } => plain([7, sem, 0, 0, 0, 0, 0, tosses::straight(to, keep)], to),
        Node::Send { queue, var: v, to } => plain(
            [
                8,
                queue,
                v,
                caps[queue as usize],
                0,
                0,
                0,
                tosses::straight(to, keep),
            ],
            to,
        ),
        Node::Recv { queue, var: v, to } => plain(
            [9, queue, v, 0, 0, 0, 0, tosses::straight(to, keep)],
            to,
        ),
        Node::Assert { var: v, to } => plain(
            [10, 0, v, 0, 0, 0, 0, tosses::straight(to, keep)],
            to,
        ),
        Node::Out { var: v, to } => plain([11, 0, v, 0, 0, 0, 0, tosses::straight(to, keep)], to),
        Node::Return => plain([12, 0, 0, 0, 0, 0, 0, 0], 0),
    }
}

// The queues' capacities.
fn caps(a: [Queue; 8]) -> [u8; 8]
    ensures { result ≡ queue_caps a }
{
    [
        a[0].cap, a[1].cap, a[2].cap, a[3].cap, a[4].cap, a[5].cap, a[6].cap, a[7].cap,
    ]
}

// The nodes of a procedure below its count, from row `base` on.
fn decode_proc<'a>(
    q: Proc,
    base: usize,
    keep: u32,
    caps: &'a [u8; 8],
    code: &'a mut [[u8; 8]; 256],
    words: &'a mut [[u32; 4]; 256],
)
    requires { Room q base code.old words.old }
    ensures code { Laid base q.nodes (λ n. bytes_of caps.now keep (node_in q n)) code.old code.new }
    ensures words { Laid base q.nodes (λ n. words_of (node_in q n)) words.old words.new }
{
    for n in 0..q.nodes as usize {
        let Decoded { bytes, words: row } = code_of(q.slots[n].node, keep, caps);
        code[base + n] = bytes;
        words[base + n] = row;
    }
}

// How many inputs a task takes whose top has so many parameters.
fn inputs(closed: bool, params: u8) -> u8
    ensures { result ≡ pick closed 0 params }
{
    if closed { 0 } else { params }
}

// The nodes of a table below its counts. The answer is how many inputs a task takes, by its top.
pub fn decode<'a>(
    t: Table,
    keep: &'a [u32; 8],
    code: &'a mut [[u8; 8]; 256],
    words: &'a mut [[u32; 4]; 256],
) -> [u8; 8]
    requires { Ready t keep.now × ((code.old ≡ no_code) × (words.old ≡ no_words)) }
    ensures code { Coded t keep.now code.new }
    ensures words { Worded t words.new }
    ensures takes { (p : ℕ) → p < t.procs → get_or result p 0 ≡ takes_of t p }
    ensures rest { (p : ℕ) → t.procs ≤ p → get_or result p 0 ≡ 0 }
{
    let caps = caps(t.queue);
    let mut r = [0u8; 8];
    for p in 0..t.procs as usize {
        let q = t.proc[p];
        decode_proc(q, 32 * p, keep[p], &caps, code, words);
        r[p] = inputs(t.closed, q.params);
    }
    r
}
