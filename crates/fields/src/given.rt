// What joining and making share: how many bytes are given for a field.
ghost use Rattle.std.specs.Prelude.{◌≡◌};
ghost use Rattle.layout.specs.Layouts.{InRecord};
ghost use Rattle.fields.specs.Making.{given_width};

use layout::Field;

// How many of the field bytes are for this field: all of its own, none for a fixed field and an amount, one for the
// service field.
pub(crate) fn given_width(f: Field) -> usize
    requires { InRecord f }
    ensures { result ≡ given_width f }
{
    let kind = f.kind;
    let given = layout::given_of(kind, f.last - (f.first - 1));
    given.to - given.from
}
