// What a sheet names and collects beside the register.
ghost use Rattle.std.specs.Prelude.{◌≡◌, ◌≤◌, vec_len};
ghost use Rattle.std.specs.List.{All};

use rules::bar::Nesting;

#[derive(Drop)]
pub struct Notes {
    // the names of the forms and of the states, by number, which has 16 bits
    pub forms: Vec<Vec<u8>>,
    pub states: Vec<Vec<u8>>,
    // the level of each form, in a list of its own: a listing takes the names as one slice, and a ladder the levels
    pub levels: Vec<u16>,
    pub bars: Vec<Nesting>,
    // the form numbers of each ticket, in postfix order
    pub tickets: Vec<Vec<u16>>,
    ghost formed: { vec_len forms ≤ 65535 },
    ghost stated: { vec_len states ≤ 65535 },
    ghost leveled: { vec_len levels ≡ vec_len forms },
    // the position of a bar is written in 16 bits
    ghost narrow: { All (λ b. b.position ≤ 65535) bars.items },
}
