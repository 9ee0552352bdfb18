// The order by number.

ghost use Rattle.std.specs.Prelude.{◌≡◌, length};
ghost use Rattle.base_sequences.specs.Sequences.{by_number};

// Fills the order by number of 256 generators.
pub fn by_number(order: &mut [u32; layout::GENERATORS])
    requires { length order.old ≡ 256 }
    ensures { order.new ≡ by_number 256 }
{
    for (i, entry) in order.iter_mut().enumerate() {
        *entry = i as u32;
    }
}

// The order by number of 256 generators, of which a pass goes by the first T.
#[derive(Drop)]
pub struct Numbers {
    pub entries: [u32; layout::GENERATORS],
    ghost in_order: { entries ≡ by_number 256 },
}

impl Numbers {
    // That order.
    pub fn new() -> Numbers {
        let mut entries = [0u32; layout::GENERATORS];
        by_number(&mut entries);
        Numbers { entries }
    }
}
