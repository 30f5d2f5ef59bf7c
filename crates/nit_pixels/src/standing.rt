//! Where an end stands.
ghost use Rattle.nit_pixels.specs.Below.{TableId, table_id_coded, ℕ};
ghost use base.Fml.{ftrue};

use std::marker::Model;

/// Which buffer an end is of, and which seat of the buffer it has. Contracts alone see it, and no
/// value of it is made.
pub struct Standing {
    pub ghost buffer: { TableId } by { table_id_coded },
    pub ghost seat: { ℕ },
}

impl Model for Standing {
    ghost also_owns = { λ _. ftrue };
}
