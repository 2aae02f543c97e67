//! One counted call, many times over, for a tool that counts instructions.
//!
//! The words are a call, how many turns, by how much each turn moves the offset, and a text to compare
//! with. A step of 0 asks for one place each time, which the compiler can't know.
#![tactic(auto)]

use mime_base::{ByteFault, Counted, Host, Meter, same_name};
use std::cmp::Ordering;
use std::{env, io};

/// A record of ten numbers, a text at 40, a value of 8 bytes at 68 and its mask at 76.
const CACHE: [u8; 84] =
    *b"\x00\x01\x00\x02\x00\x00\x00\x28\x00\x00\x00\x28\x00\x00\x00\x28\x00\x00\x00\x28\x00\x00\x00\x28\x00\x00\x00\x30\x00\x00\x00\x28\x00\x00\x00\x28\x00\x00\x00\x28application/x-compressed\x00\x00\x00\x00GIF89a01\xff\xff\xff\xff\xff\xff\xff\xff";

/// What each turn does.
#[derive(Clone, Copy)]
enum Call {
    Nothing,
    OneCard,
    FourCards,
    EightCards,
    Text,
    Compare,
    Value,
    ValueMasked,
    ValueReversed,
    SameName,
}

fn call_of(word: &str) -> Call {
    match word {
        "cards-1" => Call::OneCard,
        "cards-4" => Call::FourCards,
        "cards-8" => Call::EightCards,
        "text" => Call::Text,
        "compare" => Call::Compare,
        "value" => Call::Value,
        "value-masked" => Call::ValueMasked,
        "value-reversed" => Call::ValueReversed,
        "same-name" => Call::SameName,
        _ => Call::Nothing,
    }
}

/// One call, and a number that takes in all of its answer.
fn turn(call: Call, cache: &Counted<'_>, moved: u64, word: &[u8], meter: &mut Meter) -> u64 {
    match call {
        Call::Nothing => moved,
        Call::OneCard => mixed(cache.cards::<1>(moved, meter)),
        Call::FourCards => mixed(cache.cards::<4>(moved, meter)),
        Call::EightCards => mixed(cache.cards::<8>(moved, meter)),
        Call::Text => text_length(cache, moved, meter),
        Call::Compare => order_number(cache, moved, word, meter),
        Call::Value => equal(cache, moved, 0, 1, word, meter),
        Call::ValueMasked => equal(cache, moved, 76, 1, word, meter),
        Call::ValueReversed => equal(cache, moved, 0, 4, word, meter),
        Call::SameName => u64::from(same_name(word, &CACHE[40..64], meter)),
    }
}

fn mixed<const N: usize>(numbers: Result<[u32; N], ByteFault>) -> u64 {
    let mut all = 0;
    if let Ok(numbers) = numbers {
        for number in &numbers {
            all ^= u64::from(*number);
        }
    }
    all
}

fn text_length(cache: &Counted<'_>, moved: u64, meter: &mut Meter) -> u64 {
    match cache.text_at(moved.wrapping_add(40), meter) {
        Ok(text) => text.len() as u64,
        Err(_) => 0,
    }
}

fn order_number(cache: &Counted<'_>, moved: u64, key: &[u8], meter: &mut Meter) -> u64 {
    match cache.compare_text(moved.wrapping_add(40), key, meter) {
        Ok(Ordering::Less) => 1,
        Ok(Ordering::Equal) => 2,
        Ok(Ordering::Greater) => 3,
        Err(_) => 0,
    }
}

fn equal(
    cache: &Counted<'_>,
    moved: u64,
    mask_at: u64,
    word: u32,
    window: &[u8],
    meter: &mut Meter,
) -> u64 {
    if window.len() != 8 {
        return 0;
    }
    let at = moved.wrapping_add(68);
    match cache.value_equals(at, mask_at, 8, word, window, Host::Little, meter) {
        Ok(equal) => u64::from(equal),
        Err(_) => 2,
    }
}

fn main(rt: HostRuntime) -> io::Result<()> {
    let mut words = env::args(&rt)?.skip(1);
    let call = words.next().map_or(Call::Nothing, |word| call_of(&word));
    let turns = words.next().map_or(1, |word| word.parse().unwrap_or(1));
    let step: u64 = words.next().map_or(0, |word| word.parse().unwrap_or(0));
    let word = words.next();
    let text = match &word {
        Some(word) => word.as_bytes(),
        None => &[],
    };
    let cache = Counted::new(&CACHE);
    let mut meter = Meter::new();
    let mut all = 0u64;
    for i in 0..turns {
        let moved = step.wrapping_mul(i);
        all = all.wrapping_add(turn(call, &cache, moved, text, &mut meter));
    }
    println!(rt; "{all} nodes={} bytes={}", meter.nodes, meter.bytes)
}
