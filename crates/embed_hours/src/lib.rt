// The C boundary of the report: a log is lent as three arrays; its figures go behind pointers and into a lent slice.
#![tactic(auto)]

ghost use Rattle.std.specs.Prelude.{◌≡◌};
ghost use Rattle.table.specs.Limits.{base};
ghost use Rattle.hours.specs.Arrays.{report_of_arrays};
ghost use Rattle.embed_hours.specs.Lent.{laid, Reported};

use hours::{Figures, arrays};
use table::Table;

// As many of the figures as there are places.
// kept: beside `put` and `copy` of lines, since this crate stands on table and hours alone
fn lay(figures: [u32; Table::ROLES], places: &mut [u32])
    ensures { places.new ≡ laid figures places.old }
{
    let count = places.len().min(figures.len());
    places[..count].copy_from_slice(&figures[..count]);
}

// The report of the log whose record i is minute i, whether flag i is not 0, and set i.
// kept: the arrays and the pointers are the C interface
#[unsafe(no_mangle)]
pub extern "C" fn gaugetwinkle_report(
    minutes: &[u32],
    flags: &[u8],
    sets: &[u16],
    roles: usize,
    place: &mut usize,
    total: &mut u32,
    awake: &mut u32,
    asleep: &mut u32,
    alone: &mut [u32],
    several: &mut u32,
    nobody: &mut u32,
) -> u8
    ensures { Reported (report_of_arrays base minutes.now flags.now sets.now roles) alone.old
        result place.new total.new awake.new asleep.new alone.new several.new nobody.new }
{
    let (number, named, figures) = match arrays::report(minutes, flags, sets, roles) {
        Ok(figures) => (0, 0, figures),
        Err(refusal) => (u8::from(refusal), refusal.place(), Figures::NONE),
    };
    *place = named;
    *total = figures.total;
    *awake = figures.awake;
    *asleep = figures.asleep;
    lay(figures.alone, alone);
    *several = figures.several;
    *nobody = figures.nobody;
    number
}
