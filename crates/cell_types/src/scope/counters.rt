ghost use Rattle.std.specs.Prelude.{◌≡◌, ◌-◌, ◌<◌, not, length, take, is_some, nat_lt, ◌++◌, IfOk, OnOk, if◌then◌else◌};
ghost use Rattle.sys_base.specs.declared.kinds.Limit.TheVariants as L;
ghost use Rattle.sys_base.specs.declared.limits.TheConstants.{TURNS};
ghost use Rattle.cell_lexer.specs.declared.limits.TheConstants.{OPEN_BRACES};
ghost use Rattle.cell_types.specs.Names.{meaning, inside_loop};
ghost use Rattle.cell_types.specs.bodies.Scopes.{Resolves, scope_in};
ghost use Rattle.cell_types.specs.Statics.{when};
ghost use Rattle.cell_types.specs.declared.error.StaticError.TheVariants as E;
ghost use Rattle.cell_types.specs.declared.error.What.TheVariants as W;

use super::Scope;
use crate::error::StaticError;
use crate::variables::twice;
use sys_base::{Limit, Name, TURNS};

impl<'a> Scope<'a> {
    /// Goes into a loop on this line, and gives how many loops are around it.
    pub(crate) fn enter(&mut self, line: u32, counter: Name, turns: u64) -> Result<u8, StaticError>
        requires { length (scope_in self.old).counters < OPEN_BRACES - 1 }
        ensures depth { Resolves (when (is_some (meaning (scope_in self.old) counter)) (E.Twice (W.Named counter) line)
            ++ when (nat_lt TURNS turns) (E.Limit L.Turns line)) (λ depth. depth)
            (length (scope_in self.old).counters) result }
        ensures inside { OnOk result (scope_in self.new ≡ inside_loop counter (scope_in self.old)) }
    {
        let depth = self.counters.len() as u8;
        if self.meaning(&counter).is_some() {
            return Err(twice(&counter, line)?);
        }
        if turns > TURNS {
            return Err(StaticError::Limit {
                limit: Limit::Turns,
                line,
            });
        }
        self.counters.push(counter)?;
        Ok(depth)
    }

    /// Goes out of the innermost loop.
    pub(crate) fn leave(&mut self)
        ensures { scope_in self.new ≡ record (scope_in self.old)
            { counters = take (length (scope_in self.old).counters - 1) (scope_in self.old).counters } }
    {
        self.counters.pop();
    }
}
