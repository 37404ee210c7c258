// Values of parameters with carets (RFC 6868).
ghost use Rattle.source.specs.Source.{over};

use crate::{Cut, Cuttable, Encoding, Step};
use edition::{is_letter, meant};
use std::marker::PhantomData;

// The characters of `B` with carets: a caret and its letter are one.
pub struct Carets<B> {
    base: PhantomData<B>,
}

impl<B: Cuttable> Encoding for Carets<B> {
    ghost encoding = { over B.encoding };

    fn step(s: &[u8], at: usize) -> Option<Step> {
        let first = B::step(s, at)?;
        if first.byte != b'^' {
            return Some(first);
        }
        let Some(second) = B::step(s, first.next) else {
            return Some(first);
        };
        let letter = second.byte as usize;
        if is_letter(letter) {
            return Some(Step {
                byte: meant(letter) as u8,
                next: second.next,
            });
        }
        Some(first)
    }

    fn settled(_s: &[u8], at: usize) -> usize {
        at
    }

    fn cut() -> Option<Cut> {
        None
    }
}
