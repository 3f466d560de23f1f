//! The marks that a piece makes.
ghost use Rattle.site_walk.specs.Inside.Marks.{with_visit};

use crate::table::Table;
use crate::touched::{Pieces, Touched};
use crate::visits::{Access, Visits};
use array_eval::{Layout, NoCells, Scope, evaluate, is_dynamic};

/// Marks the cells that a piece of this number touches.
#[derive(Clone, Copy)]
pub(crate) struct Piece(pub(crate) usize);

impl Visits for Piece {
    type Notes = Table;

    ghost noted = { λ piece arrays table v. with_visit arrays piece.0 table v };

    fn note(&self, layout: &Layout, access: &Access, scope: &Scope, table: &mut Table) {
        let place = layout.place_of(access.array);
        let touch = Touched {
            by: Pieces::One(self.0),
            written: access.writes,
        };
        if is_dynamic(access.index) {
            table.touch_array(place.number, touch);
        } else {
            let number = evaluate(layout, access.index, scope, &NoCells);
            let inside = 0 <= number && number < place.length as i64;
            let cell = place.base + number.unsigned_abs() as usize;
            table.touch_cell(place.number, cell, inside, touch);
        }
    }
}
