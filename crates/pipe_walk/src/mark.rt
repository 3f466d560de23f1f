//! The marks that a member makes.
ghost use Rattle.pipe_walk.specs.Inside.Marks.{with_visit};

use crate::table::Table;
use crate::touch::Touch;
use array_eval::{Layout, NoCells, Scope, evaluate, is_dynamic};
use site_walk::{Access, Visits};

/// Marks the cells that a member of this number touches.
#[derive(Clone, Copy)]
pub(crate) struct Member(pub(crate) usize);

impl Visits for Member {
    type Notes = Table;

    ghost noted = { λ member arrays table v. with_visit arrays member.0 table v };

    fn note(&self, layout: &Layout, access: &Access, scope: &Scope, table: &mut Table) {
        let place = layout.place_of(access.array);
        let more = Touch::by(self.0, access.writes);
        if is_dynamic(access.index) {
            table.touch_array(place.number, more);
        } else {
            let number = evaluate(layout, access.index, scope, &NoCells);
            table.touch_cell(place.base + number.unsigned_abs() as usize, more);
        }
    }
}
