//! Classes of patterns, and which offers a [`Best`] keeps.

use crate::tests::checked::alike;
use mime_base::{Best, Class, Pattern, class_of, rank_of};
use std::alloc::Global;
use std::test::Fail;

static CLASSES: [(&str, &[u8], Class); 5] = [
    ("no special byte", b"makefile", Class::Literal),
    ("a star alone", b"*", Class::Suffix),
    ("a star and a text", b"*.tar.gz", Class::Suffix),
    ("a question mark after it", b"*.g?", Class::Full),
    ("a star that is not first", b"a*", Class::Full),
];

#[test]
fn classes(rt: HostRuntime) -> Result<(), Fail> {
    for &(name, text, class) in &CLASSES {
        let pattern = Pattern::new(rt.alloc(), text)?;
        alike(&rt, name, class_of(&pattern), class);
    }
    Ok(())
}

/// The class, the weight, the length and the case-sensitive flag of a hit.
type Hit = (Class, u8, u16, bool);

const LONGER: Hit = (Class::Suffix, 50, 7, false);

const WEIGHT_60: Hit = (Class::Suffix, 60, 4, false);

const LITERAL: Hit = (Class::Literal, 0, 1, false);

const CASED: Hit = (Class::Literal, 0, 1, true);

/// Offers of hits, and those that are kept.
struct Offers {
    name: &'static str,
    offers: &'static [(Hit, u8)],
    kept: &'static [u8],
}

static OFFERS: [Offers; 4] = [
    Offers {
        name: "no offer",
        offers: &[],
        kept: &[],
    },
    Offers {
        name: "a greater weight between longer patterns",
        offers: &[(LONGER, 1), (WEIGHT_60, 2), (LONGER, 3)],
        kept: &[2],
    },
    Offers {
        name: "a suffix between literals",
        offers: &[(LITERAL, 1), (WEIGHT_60, 2), (LITERAL, 3)],
        kept: &[1, 3],
    },
    Offers {
        name: "two case-sensitive rules among four",
        offers: &[(LITERAL, 1), (CASED, 2), (LITERAL, 3), (CASED, 4)],
        kept: &[2, 4],
    },
];

/// What is kept of the offers.
fn kept(alloc: Global, offers: &[(Hit, u8)]) -> Result<Vec<u8>, Fail> {
    let mut best = Best::new(alloc);
    for ((class, weight, length, cased), item) in offers {
        best.offer(rank_of(*class, *weight, *length, *cased), *item)?;
    }
    Ok(best.into_items())
}

/// The same of ranks that no hit has.
fn kept_of_rank_0(alloc: Global) -> Result<Vec<u8>, Fail> {
    let mut best = Best::new(alloc);
    best.offer(0, 1)?;
    best.offer(0, 2)?;
    Ok(best.into_items())
}

#[test]
fn keeps_the_best_in_their_order(rt: HostRuntime) -> Result<(), Fail> {
    for row in &OFFERS {
        let items = kept(rt.alloc(), row.offers)?;
        alike(&rt, row.name, items.as_slice(), row.kept);
    }
    let items = kept_of_rank_0(rt.alloc())?;
    alike(&rt, "equal ranks", items.as_slice(), &[1, 2]);
    Ok(())
}
