use rtrb::{Consumer, Producer, RingBuffer};
use std::alloc::{AllocError, Global};
use std::sync::Wait;
use std::thread;
use std::thread::Threads;

/// Whether so many numbers came in order through a ring of 4,096 places.
pub fn run<R: Threads + Wait + Sync>(
    rt: &R,
    alloc: Global,
    count: u64,
) -> Result<bool, AllocError> {
    let (producer, consumer) = RingBuffer::new(alloc, 4096)?;
    let (_, in_order) = thread::join(
        rt,
        move || { send(rt, producer, count) },
        move || { receive(rt, consumer, count) },
    );
    Ok(in_order)
}

fn send<R: Wait>(rt: &R, mut producer: Producer<u64>, count: u64) {
    for value in 0..count {
        push(rt, &mut producer, value);
    }
}

fn push<R: Wait>(rt: &R, producer: &mut Producer<u64>, value: u64) {
    for _ in rt.forever() {
        if producer.push(value).is_ok() {
            return;
        }
    }
    unreachable!()
}

fn receive<R: Wait>(rt: &R, mut consumer: Consumer<u64>, count: u64) -> bool {
    let mut in_order = true;
    for value in 0..count {
        in_order &= pop(rt, &mut consumer) == value;
    }
    in_order
}

fn pop<R: Wait>(rt: &R, consumer: &mut Consumer<u64>) -> u64 {
    for _ in rt.forever() {
        if let Ok(value) = consumer.pop() {
            return value;
        }
    }
    unreachable!()
}
