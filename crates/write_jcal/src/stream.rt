// The stream of calendars. See crate jcal, specs/WriteJcal.antt.
ghost use Rattle.std.specs.Prelude.{◌≡◌, true};
ghost use Rattle.sink.specs.Sink.{Put};
ghost use Rattle.source.specs.Source.{rest};
ghost use Rattle.folding.specs.Lines.{lines};
ghost use Rattle.text.specs.Tree.{calendar_of};
ghost use Rattle.jcal.specs.WriteJcal.{write_jcal};

use crate::alone::is_alone;
use crate::components::put_components;
use edition::Edition;
use schema::component;
use sink::put;
use source::Cuttable;

// The canonical jCal of the text, whatever it is: one calendar alone, or an array of them.
pub fn put_jcal<E: Cuttable>(out: &mut [u8], o: usize, edition: Edition, s: &[u8]) -> usize
    ensures { Put out.old out.new o result
        (write_jcal (calendar_of edition (lines (rest E.encoding s.now 0)))) }
{
    let from = E::settled(s, 0);
    let alone = is_alone::<E>(edition, s, from);
    if alone {
        let a = put_components::<E>(out, o, edition, s, from, component::LEVELS);
        return a.to;
    }
    let b = put(out, o, b'[');
    let c = put_components::<E>(out, b, edition, s, from, component::LEVELS);
    put(out, c.to, b']')
}
