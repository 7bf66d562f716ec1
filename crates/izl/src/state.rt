ghost use Rattle.std.proofs.Props.{props};
ghost use Rattle.std.specs.Coded.{codes};
ghost use Rattle.izl_rule.specs.Invariant.{Sound};
ghost use Rattle.izl.specs.SoundState.{SoundState};
ghost use Rattle.izl.specs.View.{view as state};

use crate::tables::Tables;
use std::marker::Model;

// IZL, loaded or new: for contracts a state of the rule and, with it, that it is sound.
#[derive(Drop)]
pub struct Izl {
    pub(crate) tables: Tables,
    ghost sound: { Sound (state tables) } by { Prim.hlevel props },
}

impl Model for Izl {
    ghost Value = { SoundState };

    ghost coded = { Prim.hlevel (codes, props) };

    ghost view = { λ izl. record { state = state izl.tables; sound = izl.sound } };
}
