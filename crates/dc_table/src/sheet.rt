//! What a pass knows, which is for the proof alone.

ghost use Rattle.dc_table.specs.Shares.{Known, known_coded};

use std::marker::{Model, PhantomData};

/// What a pass knows of the table, has done and has seen. It has no bytes, and no value of it is made.
pub struct Sheet {
    of: PhantomData<u64>,
    pub ghost known: { Known } by { known_coded },
}

impl Model for Sheet {
    ghost use base.Fml.{ftrue};

    ghost also_owns = { λ _. ftrue };
}
