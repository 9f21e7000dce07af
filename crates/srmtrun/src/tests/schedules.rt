ghost use Rattle.std.specs.Prelude.{◌<◌, length, IfOk};
ghost use Rattle.mid_code.specs.Start.{FitLimits};

use first_form::{compile_first_form, pair_of};
use mid_code::Pair;
use pair_core::{Duo, Ran, Verdict, alternate};
use srmt_base::{Event, Limits, Side};
use srmt_outside::MemOutlet;
use std::alloc::{AllocError, Global};
use std::test::Fail;

// Room for the entry of `main`.
const LIMITS: Limits = Limits {
    turns: 10,
    depth: 10,
    cells: 10,
};

// The pair of a short source of the first form.
fn pair_from(alloc: Global, source: &[u8]) -> Result<Pair, Fail>
    requires { length source.now < 1000 }
    ensures { IfOk result (λ pair. FitLimits pair.program LIMITS) }
{
    let Ok(program) = compile_first_form(alloc, source) else {
        return Err(AllocError)?;
    };
    Ok(pair_of(alloc, program)?)
}

// Whose turn it is.
#[derive(Clone, Copy, Debug)]
enum Order {
    // So many tries of one side, then so many of the other, and again.
    Bursts(Side, u8, u8),
    // By a sequence of numbers that looks random and is always the same.
    Mixed(u64),
}

const ORDERS: [Order; 7] = [
    Order::Bursts(Side::Lead, 40, 40),
    Order::Bursts(Side::Trail, 40, 40),
    Order::Bursts(Side::Lead, 1, 1),
    Order::Bursts(Side::Trail, 1, 3),
    Order::Mixed(1),
    Order::Mixed(20_000_003),
    Order::Mixed(987_654_321),
];

fn other(side: Side) -> Side {
    match side {
        Side::Lead => Side::Trail,
        Side::Trail => Side::Lead,
    }
}

fn side_of(order: Order, number: u32) -> Side {
    match order {
        Order::Bursts(first, many, few) => {
            let round = (u32::from(many) + u32::from(few)).max(1);
            if number % round < u32::from(many) {
                first
            } else {
                other(first)
            }
        }
        Order::Mixed(seed) => {
            let mixed = seed
                .wrapping_add(u64::from(number))
                .wrapping_mul(0x9E37_79B9_7F4A_7C15);
            if mixed / 4_294_967_296 % 2 == 0 {
                Side::Lead
            } else {
                Side::Trail
            }
        }
    }
}

// The counts of an answer, and its status if it is an exit, or 124 if an event failed.
fn told(ran: &Ran) -> [u64; 5] {
    let status = match &ran.verdict {
        Verdict::Exit(status) => u64::from(*status),
        Verdict::WriteFault => 124,
        _ => 1_000,
    };
    [ran.lead_steps, ran.trail_steps, ran.words, ran.acks, status]
}

// Makes tries in this order until both sides have ended.
fn run_in(
    alloc: Global,
    pair: &Pair,
    order: Order,
    outlet: &mut MemOutlet,
) -> Result<Option<[u64; 5]>, AllocError>
    requires { FitLimits pair.now.program LIMITS }
{
    let mut duo = Duo::start(alloc, pair, Vec::new(alloc), LIMITS)?;
    for number in 0..500 {
        if let Some(ran) = duo.ran() {
            return Ok(Some(told(&ran)));
        }
        let _stepped = duo.act(pair, outlet, side_of(order, number));
    }
    Ok(None)
}

// Whether this order gives the same answer and the same events.
fn gives_the_same(
    alloc: Global,
    pair: &Pair,
    order: Order,
    expected: [u64; 5],
    events: &[Event],
) -> Result<bool, AllocError>
    requires { FitLimits pair.now.program LIMITS }
{
    let mut outlet = MemOutlet::with_room(alloc, 3)?;
    let numbers = run_in(alloc, pair, order, &mut outlet)?;
    Ok(numbers == Some(expected) && outlet.events() == events)
}

// Whether every order gives the answer and the events that turns of one side after the other give.
fn all_give_the_same(
    alloc: Global,
    pair: &Pair,
    ran: [u64; 5],
    events: &[Event],
) -> Result<bool, AllocError>
    requires { FitLimits pair.now.program LIMITS }
{
    for order in ORDERS {
        if !gives_the_same(alloc, pair, order, ran, events)? {
            return Ok(false);
        }
    }
    Ok(true)
}

// What both sides give by turns of one after the other.
fn in_turn(alloc: Global, pair: &Pair, outlet: &mut MemOutlet) -> Result<[u64; 5], AllocError>
    requires { FitLimits pair.now.program LIMITS }
{
    let mut duo = Duo::start(alloc, pair, Vec::new(alloc), LIMITS)?;
    let ran = alternate(&mut duo, pair, outlet);
    Ok(told(&ran))
}

// Whether every order of the sides of a source gives the same.
fn same_in_every_order(alloc: Global, source: &[u8]) -> Result<bool, Fail>
    requires { length source.now < 1000 }
{
    let pair = pair_from(alloc, source)?;
    let mut outlet = MemOutlet::with_room(alloc, 3)?;
    let ran = in_turn(alloc, &pair, &mut outlet)?;
    Ok(all_give_the_same(alloc, &pair, ran, outlet.events())?)
}

#[test]
fn every_order_gives_the_same(rt: HostRuntime) -> Result<(), Fail> {
    let sources: [&[u8]; 3] = [
        b"int main(void){return 7;}",
        b"int main(void) { putchar(65); return 0; }",
        b"int main(void){putchar(66);putchar(321);return 300;}",
    ];
    for source in sources {
        assert!(rt; source.len() < 1000);
        assert!(rt; same_in_every_order(rt.alloc(), source)?);
    }
    Ok(())
}
