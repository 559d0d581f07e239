// A list of forms: at most 64, each with an arity of 0 to 4.
ghost use Rattle.std.specs.Prelude.{◌≡◌, true, is_ok};
ghost use Rattle.tickets.specs.Forms.{forms_checked};

#[derive(Clone, Copy)]
pub struct Forms<'f> {
    pub arities: &'f [u8],
    ghost few: { is_ok (forms_checked arities.now) ≡ true },
}
