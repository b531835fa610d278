//! The cases of a switch.

ghost use Rattle.std.specs.Prelude.{◌≡◌, ◌≤◌, ◌+◌, length, IfOk};
ghost use Rattle.odc_syntax.specs.Grammar as g;
ghost use Rattle.odc_lookahead.specs.Exact.{Exact, one};
ghost use Rattle.odc_lookahead.specs.Read.{seen};
ghost use Rattle.odc_parse_expr.specs.SwitchForms.{case_list};
ghost use Rattle.odc_lookahead.specs.stmts.SwitchSets.{continues_cases};

use crate::block::stmts;
use crate::spans::items;
use odc_lookahead::read::Read;
use odc_lookahead::stop::Stop;
use odc_lookahead::tokens::{expect, strip, within};
use odc_syntax::token::{Token, TokenKind};
use odc_syntax::tree::{Case, Span};
use odc_tree::discard::{discard_cases, discard_spans};
use odc_tree::list::push_case;
use std::alloc::Global;

/// Cases, up to what begins none.
#[cycle(parser)]
pub fn cases<'a>(alloc: Global, tokens: &'a [Token], depth: u8) -> Result<Read<'a, Vec<Case>>, Stop>
    ensures exact { Exact (one g.cases) continues_cases depth tokens.now (seen case_list result) }
    ensures shorter { IfOk result (λ r. length r.rest.now ≤ length tokens.now) }
    ensures low { IfOk result (λ r. r.height ≤ depth + 1) }
{
    let mut list = Vec::new(alloc);
    let mut height: u16 = 0;
    let mut rest = tokens;
    'cases: while let Some((word, behind)) = strip(rest, TokenKind::Case) {
        if height > u16::from(depth) {
            return Err(discard_cases(list, Stop::Deep(behind.len())));
        }
        let Read {
            tree: values,
            height: n,
            rest: colon,
        } = match items(alloc, behind, depth) {
            Ok(read) => read,
            Err(error) => return Err(discard_cases(list, error)),
        };
        let top = height.max(n);
        let inner = match expect(colon, TokenKind::Colon, within(top, depth)) {
            Ok((_colon, inner)) => inner,
            Err(error) => return Err(discard_values(list, values, error)),
        };
        let Read {
            tree: body,
            height: m,
            rest: after,
        } = match stmts(alloc, inner, depth) {
            Ok(read) => read,
            Err(error) => return Err(discard_values(list, values, error)),
        };
        list = push_case(
            list,
            Case {
                at: word.at,
                items: values,
                body,
            },
        )?;
        height = top.max(m);
        rest = after;
    }
    Ok(Read {
        tree: list,
        height,
        rest,
    })
}

/// The reason why cases and the values of a further one are not used.
fn discard_values(list: Vec<Case>, values: Vec<Span>, why: Stop) -> Stop
    ensures { result ≡ why }
{
    discard_cases(list, discard_spans(values, why))
}
