//! Where tokens are at fault.

ghost use Rattle.std.specs.Prelude.{◌≡◌, ◌≤◌, ◌-◌, length, IfOk, IfErr};
ghost use Rattle.odc_lookahead.specs.Refused.{NoneRefused};
ghost use Rattle.odc_lookahead.specs.Law.{place_of};
ghost use Rattle.odc_lookahead.specs.Blame.{Blamed, Cut, Stopped};

use crate::error::ParseError;
use crate::refused::first_refused_between;
use crate::stop::Stop;
use odc_syntax::token::Tokens;
use odc_text::code::{Code, Fault};
use odc_text::place::Place;

/// The place of the token at this position, or the end of all.
pub fn place_of(t: &Tokens, at: usize) -> Place
    ensures { result ≡ place_of t.now.list.items t.now.end at }
{
    match t.list.get(at) {
        Some(token) => token.at,
        None => t.end,
    }
}

/// The fault of the first refused form that begins from `from` on and before `upto`, or else this code
/// at this position.
pub fn blame(t: &Tokens, from: usize, upto: usize, at: usize, code: Code) -> Fault
    ensures { Blamed t.now.list.items t.now.end from upto at code result }
{
    match first_refused_between(t.list.as_slice(), from, upto) {
        Some((first, refused)) => Fault {
            code: refused,
            at: place_of(t, first),
        },
        None => Fault {
            code,
            at: place_of(t, at),
        },
    }
}

/// The position behind what was read from `from` on, if it is not too deep and no refused form begins in
/// it. So many tokens are left behind it.
pub fn end_of(t: &Tokens, from: usize, depth: u16, left: usize) -> Result<usize, Fault>
    ensures next { IfOk result (λ n. n ≡ length t.now.list.items - left) }
    ensures low { IfOk result (λ n. depth ≤ 200) }
    ensures clean { IfOk result (NoneRefused t.now.list.items from) }
    ensures cut { IfErr result (Cut t.now.list.items t.now.end from depth (length t.now.list.items - left)) }
{
    let next = t.list.len().saturating_sub(left);
    if depth > 200 {
        return Err(blame(t, from, next + 1, next, Code::G01));
    }
    match first_refused_between(t.list.as_slice(), from, next) {
        Some((at, code)) => Err(Fault {
            code,
            at: place_of(t, at),
        }),
        None => Ok(next),
    }
}

/// What is answered where a part from `from` on is not read.
pub fn stopped(t: &Tokens, from: usize, stop: Stop) -> ParseError
    ensures { Stopped t.now.list.items t.now.end from stop result }
{
    match stop {
        Stop::Syntax(left) => {
            let at = t.list.len().saturating_sub(left);
            ParseError::Fault(blame(t, from, at + 1, at, Code::G01))
        }
        Stop::Deep(left) => {
            let at = t.list.len().saturating_sub(left).saturating_sub(1);
            ParseError::Fault(blame(t, from, at + 1, at, Code::L05))
        }
        Stop::Memory => ParseError::Memory,
    }
}
