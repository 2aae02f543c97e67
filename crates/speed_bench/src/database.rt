//! Text files of a data directory, of the sizes and proportions of real ones.

use crate::random::Random;
use crate::texts::{Texts, add_letters, add_number};
use std::alloc::{AllocError, Global};

/// How many there are of each thing.
#[derive(Clone, Copy)]
pub struct Shape {
    pub kinds: usize,
    pub endings: usize,
    pub literals: usize,
    pub generals: usize,
    pub sections: usize,
    pub aliases: usize,
    pub parents: usize,
    pub icons: usize,
}

/// As a desktop's own database.
pub const DESKTOP: Shape = Shape {
    kinds: 762,
    endings: 1_111,
    literals: 22,
    generals: 7,
    sections: 473,
    aliases: 303,
    parents: 450,
    icons: 399,
};

/// As what some packages add, or a user.
pub const ADDED: Shape = Shape {
    kinds: 30,
    endings: 40,
    literals: 3,
    generals: 1,
    sections: 12,
    aliases: 12,
    parents: 18,
    icons: 16,
};

/// Ten times a desktop's.
pub const TENFOLD: Shape = Shape {
    kinds: 7_620,
    endings: 11_110,
    literals: 220,
    generals: 70,
    sections: 4_730,
    aliases: 3_030,
    parents: 4_500,
    icons: 3_990,
};

/// What a database has, and the text files that say it.
#[derive(Drop)]
pub struct Made {
    pub kinds: Texts,
    /// The texts that names of suffix rules end in, each with its dot.
    pub endings: Texts,
    pub literals: Texts,
    /// Values of magic, each after its start, a number of two bytes.
    pub fronts: Texts,
    pub globs2: Vec<u8>,
    pub magic: Vec<u8>,
    pub aliases: Vec<u8>,
    pub subclasses: Vec<u8>,
    pub generic_icons: Vec<u8>,
}

/// What types begin with, as often as it is so.
const MEDIA: [&[u8]; 20] = [
    b"application/vnd.",
    b"application/vnd.",
    b"application/vnd.",
    b"application/x-",
    b"application/x-",
    b"application/x-",
    b"application/x-",
    b"application/x-",
    b"application/",
    b"application/",
    b"text/x-",
    b"text/x-",
    b"text/",
    b"image/x-",
    b"image/x-",
    b"image/",
    b"audio/x-",
    b"audio/",
    b"video/x-",
    b"font/",
];

/// How long the rest of a type is, by tenths.
const REST_LENGTHS: [usize; 10] = [4, 5, 6, 7, 8, 9, 10, 12, 14, 17];

/// How long an ending is after its dot, by tenths.
const ENDING_LENGTHS: [usize; 10] = [2, 3, 3, 3, 3, 3, 3, 4, 4, 5];

/// General patterns, of which each seventh is made anew.
const GENERALS: [&[u8]; 7] = [
    b"*.so.[0-9]*",
    b"*.[1-9]",
    b"readme*",
    b"[0-9][0-9][0-9].vdr",
    b"*,v[0-9]",
    b"core.[0-9]*",
    b"*.anim[1-9j]",
];

/// How long a value of magic is.
const VALUE_LENGTHS: [usize; 20] = [
    2, 2, 3, 4, 4, 4, 4, 4, 4, 4, 5, 6, 7, 8, 8, 9, 12, 14, 16, 23,
];

/// Where a line of magic looks first, where that is not the front.
const STARTS: [usize; 16] = [1, 2, 2, 2, 4, 4, 4, 7, 8, 16, 20, 60, 128, 256, 546, 2_112];

/// Where a few lines look, so that as much is read of a content.
const FAR_START: usize = 18_700;

/// At how many places a line of magic looks, where that is more than one.
const RANGES: [usize; 16] = [
    257, 257, 257, 257, 257, 257, 257, 257, 257, 257, 15, 15, 15, 65, 33, 157,
];

/// The same, of a few lines.
const FAR_RANGES: [usize; 2] = [1_025, 3_001];

/// How many lines a section has that look first.
const LINE_COUNTS: [usize; 20] = [1, 1, 1, 1, 1, 1, 1, 1, 1, 1, 1, 1, 1, 1, 2, 2, 2, 3, 4, 7];

/// What values of magic begin with, as often as it is so.
const FIRSTS: &[u8; 32] = b"<<<PPP##//[SSf\0\0M-\nOF%BI\x1fC\xffAR*e{";

/// Makes what a database of this shape has, and its text files.
pub fn make(alloc: Global, random: &mut Random, shape: Shape) -> Result<Box<Made>, AllocError> {
    let made = Made {
        kinds: Texts::new(alloc),
        endings: Texts::new(alloc),
        literals: Texts::new(alloc),
        fronts: Texts::new(alloc),
        globs2: Vec::new(alloc),
        magic: Vec::new(alloc),
        aliases: Vec::new(alloc),
        subclasses: Vec::new(alloc),
        generic_icons: Vec::new(alloc),
    };
    let mut made = Box::new(alloc, made)?;
    make_kinds(alloc, random, shape.kinds, &mut made.kinds)?;
    add_endings(alloc, random, shape.endings, &mut made)?;
    add_literals(alloc, random, shape.literals, &mut made)?;
    add_generals(alloc, random, shape.generals, &mut made)?;
    add_sections(alloc, random, shape.sections, &mut made)?;
    add_aliases(alloc, random, shape.aliases, &mut made)?;
    add_parents(random, shape.parents, &mut made)?;
    add_icons(random, shape.icons, &mut made)?;
    Ok(made)
}

fn make_kinds(
    alloc: Global,
    random: &mut Random,
    count: usize,
    kinds: &mut Texts,
) -> Result<(), AllocError> {
    let mut rest = Vec::new(alloc);
    for _ in 0..count {
        rest.clear();
        let length = random.among(&REST_LENGTHS);
        add_letters(&mut rest, random, length)?;
        let place = random.below(MEDIA.len());
        kinds.add(&[MEDIA.get(place).copied().unwrap_or(b"text/"), &rest])?;
    }
    Ok(())
}

// Adds a line of globs2.
fn add_rule(
    text: &mut Vec<u8>,
    weight: usize,
    kind: &[u8],
    pattern: &[&[u8]],
    is_cased: bool,
) -> Result<(), AllocError> {
    add_number(text, weight)?;
    text.push(b':')?;
    text.extend_from_slice(kind)?;
    text.push(b':')?;
    for part in pattern {
        text.extend_from_slice(part)?;
    }
    text.extend_from_slice(if is_cased { b":cs\n" } else { b"\n" })?;
    Ok(())
}

// Most weights are 50.
fn any_weight(random: &mut Random) -> usize {
    if random.chance(98) {
        50
    } else {
        random.among(&[40, 60, 60, 80])
    }
}

fn add_endings(
    alloc: Global,
    random: &mut Random,
    count: usize,
    made: &mut Made,
) -> Result<(), AllocError> {
    let mut ending = Vec::new(alloc);
    for _ in 0..count {
        // A few endings have two rules.
        if !random.chance(6) || ending.is_empty() {
            ending.clear();
            make_ending(random, &mut ending)?;
            made.endings.add(&[&ending])?;
        }
        let weight = any_weight(random);
        let is_cased = random.chance(1) && random.chance(40);
        let kind = made.kinds.any(random);
        add_rule(&mut made.globs2, weight, kind, &[b"*", &ending], is_cased)?;
    }
    Ok(())
}

fn make_ending(random: &mut Random, ending: &mut Vec<u8>) -> Result<(), AllocError> {
    if random.chance(4) {
        ending.extend_from_slice(b".tar")?;
    }
    ending.push(b'.')?;
    let length = random.among(&ENDING_LENGTHS);
    add_letters(ending, random, length)
}

fn add_literals(
    alloc: Global,
    random: &mut Random,
    count: usize,
    made: &mut Made,
) -> Result<(), AllocError> {
    let mut literal = Vec::new(alloc);
    for _ in 0..count {
        literal.clear();
        let length = random.among(&[6, 7, 8, 9, 11]);
        add_letters(&mut literal, random, length)?;
        made.literals.add(&[&literal])?;
        let kind = made.kinds.any(random);
        add_rule(&mut made.globs2, 50, kind, &[&literal], false)?;
    }
    Ok(())
}

fn add_generals(
    alloc: Global,
    random: &mut Random,
    count: usize,
    made: &mut Made,
) -> Result<(), AllocError> {
    let mut word = Vec::new(alloc);
    for number in 0..count {
        word.clear();
        if number >= GENERALS.len() {
            add_letters(&mut word, random, 3)?;
        }
        let general = GENERALS.get(number % 7).copied().unwrap_or(b"*.[1-9]");
        let kind = made.kinds.any(random);
        add_rule(&mut made.globs2, 50, kind, &[&word, general], false)?;
    }
    Ok(())
}

// Sections stand by falling priority.
fn priority_at(number: usize, count: usize) -> usize {
    match number.saturating_mul(100) / count.max(1) {
        0..=2 => 90,
        3..=6 => 80,
        7..=12 => 60,
        13..=84 => 50,
        85..=92 => 45,
        _ => 40,
    }
}

fn add_sections(
    alloc: Global,
    random: &mut Random,
    count: usize,
    made: &mut Made,
) -> Result<(), AllocError> {
    made.magic.extend_from_slice(b"MIME-Magic\0\n")?;
    let mut value = Vec::new(alloc);
    for number in 0..count {
        made.magic.push(b'[')?;
        add_number(&mut made.magic, priority_at(number, count))?;
        made.magic.push(b':')?;
        made.magic.extend_from_slice(made.kinds.any(random))?;
        made.magic.extend_from_slice(b"]\n")?;
        let lines = random.among(&LINE_COUNTS);
        for _ in 0..lines {
            add_line(random, 0, &mut value, made)?;
            add_children(random, &mut value, made)?;
        }
    }
    Ok(())
}

// One line in six has children, and one of these children of its own.
fn add_children(
    random: &mut Random,
    value: &mut Vec<u8>,
    made: &mut Made,
) -> Result<(), AllocError> {
    if random.chance(84) {
        return Ok(());
    }
    let children = random.among(&[1, 1, 1, 2, 4]);
    for _ in 0..children {
        add_line(random, 1, value, made)?;
        if random.chance(30) {
            add_line(random, 2, value, made)?;
        }
    }
    Ok(())
}

fn add_line(
    random: &mut Random,
    level: usize,
    value: &mut Vec<u8>,
    made: &mut Made,
) -> Result<(), AllocError> {
    let start = match random.below(400) {
        0..=319 => 0,
        320 => FAR_START,
        _ => random.among(&STARTS),
    };
    let range = any_range(random);
    let length = random.among(&VALUE_LENGTHS);
    // What is sought at many places is long enough to be told from text.
    let length = if range > 1 { length.max(5) } else { length };
    make_value(random, length, value)?;
    let text = &mut made.magic;
    if level > 0 {
        add_number(text, level)?;
    }
    text.push(b'>')?;
    add_number(text, start)?;
    text.push(b'=')?;
    text.extend_from_slice(&[(length / 256 % 256) as u8, (length % 256) as u8])?;
    text.extend_from_slice(value)?;
    let is_plain = range > 1 || add_mask(random, length, text)?;
    if range > 1 {
        text.push(b'+')?;
        add_number(text, range)?;
    }
    text.push(b'\n')?;
    if level == 0 && is_plain {
        let two = [(start / 256 % 256) as u8, (start % 256) as u8];
        made.fronts.add(&[&two, value])?;
    }
    Ok(())
}

// One line in seven looks at many places.
fn any_range(random: &mut Random) -> usize {
    match random.below(500) {
        0 => random.among(&FAR_RANGES),
        1..=72 => random.among(&RANGES),
        _ => 1,
    }
}

fn make_value(random: &mut Random, length: usize, value: &mut Vec<u8>) -> Result<(), AllocError> {
    value.clear();
    let place = random.below(FIRSTS.len());
    let first = if random.chance(80) {
        FIRSTS.get(place).copied().unwrap_or(b'<')
    } else {
        (random.next() % 256) as u8
    };
    value.push(first)?;
    if length > 3 && random.chance(60) {
        return add_letters(value, random, length - 1);
    }
    for _ in 1..length {
        value.push((random.next() % 256) as u8)?;
    }
    Ok(())
}

// A few lines have a mask or words of two bytes: whether this has none of them.
fn add_mask(random: &mut Random, length: usize, text: &mut Vec<u8>) -> Result<bool, AllocError> {
    if random.chance(2) {
        text.push(b'&')?;
        for _ in 0..length {
            text.push(if random.chance(70) { 0xff } else { 0xf0 })?;
        }
        return Ok(false);
    }
    if length % 2 == 0 && random.chance(1) {
        text.extend_from_slice(b"~2")?;
        return Ok(false);
    }
    Ok(true)
}

fn add_aliases(
    alloc: Global,
    random: &mut Random,
    count: usize,
    made: &mut Made,
) -> Result<(), AllocError> {
    let mut names = Texts::new(alloc);
    make_kinds(alloc, random, count, &mut names)?;
    for number in 0..count {
        made.aliases.extend_from_slice(names.at(number))?;
        made.aliases.push(b' ')?;
        made.aliases.extend_from_slice(made.kinds.any(random))?;
        made.aliases.push(b'\n')?;
    }
    Ok(())
}

fn add_parents(random: &mut Random, count: usize, made: &mut Made) -> Result<(), AllocError> {
    for _ in 0..count {
        made.subclasses.extend_from_slice(made.kinds.any(random))?;
        made.subclasses.push(b' ')?;
        let text = &mut made.subclasses;
        match random.below(5) {
            0 => text.extend_from_slice(b"text/plain")?,
            1 => text.extend_from_slice(b"application/xml")?,
            2 => text.extend_from_slice(b"application/zip")?,
            _ => text.extend_from_slice(made.kinds.common(random))?,
        }
        made.subclasses.push(b'\n')?;
    }
    Ok(())
}

fn add_icons(random: &mut Random, count: usize, made: &mut Made) -> Result<(), AllocError> {
    for _ in 0..count {
        made.generic_icons
            .extend_from_slice(made.kinds.any(random))?;
        let icon: &[u8] = match random.below(4) {
            0 => b":package-x-generic\n",
            1 => b":text-x-script\n",
            2 => b":application-x-executable\n",
            _ => b":x-office-document\n",
        };
        made.generic_icons.extend_from_slice(icon)?;
    }
    Ok(())
}
