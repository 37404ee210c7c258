// A whole component, and several. See specs/Subcomponents.antt.
ghost use Rattle.std.specs.Prelude.{◌≤◌, length};
ghost use Rattle.read_jcal.specs.Subcomponents.{ComponentAt, CompsAt};

use crate::Outer;
use crate::component::{begun, behind};
use edition::Edition;
use read_json::kinds::is_there;
use read_json::{Head, element_at, element_next};
use refusals::Fault;
use schema::method_for;

// The component that an element is; `left`, here and below: the levels that are left; `method`: whether the calendar round it has METHOD.
#[cycle(component_verdict_components_verdict)]
pub fn component_verdict(
    edition: Edition,
    s: &[u8],
    h: Head,
    outer: Outer,
    left: usize,
    method: bool,
) -> Result<(), Fault>
    requires { h.next ≤ length s.now }
    ensures { ComponentAt edition outer left method s.now h result }
{
    let c = begun(edition, outer, left, s, h)?;
    let m = method_for(c.component, c.kept.counts, method);
    let inner = Outer::Component(c.component);
    components_verdict(edition, s, c.components, inner, left - 1, m)?;
    behind(c, method, s, h.next)
}

// The components that stand from `from` on.
#[cycle(component_verdict_components_verdict)]
pub fn components_verdict(
    edition: Edition,
    s: &[u8],
    from: usize,
    outer: Outer,
    left: usize,
    method: bool,
) -> Result<(), Fault>
    ensures { CompsAt edition outer left method s.now from result }
{
    let mut at = from;
    loop {
        let h = element_at(s, at);
        if !is_there(h.kind) {
            return Ok(());
        }
        component_verdict(edition, s, h, outer, left, method)?;
        at = element_next(s, h);
    }
}
