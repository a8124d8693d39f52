ghost use Rattle.std.specs.Prelude.{◌≡◌, Result};
ghost use Rattle.texts.specs.declared.fault.Bad.{Bad};
ghost use Rattle.texts.specs.Lines.{Row, row};
ghost use Rattle.texts.specs.Elements.{bundle_of, landing_hit, landing_of};

use crate::fault::Bad;
use crate::fields::Fields;
use vocabulary::bundle::Bundle;
use vocabulary::landing::Landing;

// What the posts of a sheet bring: the last fields of a post's line.
pub trait Element: Sized {
    // which element a row of fields is, or which field is bad
    ghost reads: { Row → Result Self Bad };

    // The element that the fields write, all of them.
    fn read(fields: Fields<'_>) -> Result<Self, Bad>
        ensures { result ≡ reads (row fields.entry) };
}

impl Element for Bundle {
    ghost reads = { bundle_of };

    fn read(mut fields: Fields<'_>) -> Result<Bundle, Bad> {
        let field = fields.byte()?;
        let wavelength = fields.byte()?;
        let rays = fields.number(0, 65_535)? as u16;
        fields.end()?;
        Ok(Bundle {
            field,
            wavelength,
            rays,
        })
    }
}

// The landing of a ray that hit the image plane, from its x on.
fn hit(mut fields: Fields<'_>) -> Result<Landing, Bad>
    ensures { result ≡ landing_hit (row fields.entry) }
{
    let x = fields.coordinate()?;
    let y = fields.coordinate()?;
    fields.end()?;
    Ok(Landing::Hit { x, y })
}

impl Element for Landing {
    ghost reads = { landing_of };

    fn read(mut fields: Fields<'_>) -> Result<Landing, Bad> {
        let bad = fields.next_bad();
        match fields.word()? {
            b"lost" => Ok(Landing::Lost {
                surface: fields.last_byte()?,
            }),
            b"hit" => hit(fields),
            _ => Err(bad),
        }
    }
}
