// Names: as a row keeps them, by tag and numbers, and as they read in the provider's text.
ghost use Rattle.std.specs.Prelude.{◌≡◌};
ghost use Rattle.procedures.specs.Names.{spelled, name_of, bytes_of};
ghost use Rattle.std.specs.Option.{option_map};

use base::image::TextPart;

// A name is one of four, none among them.
#[derive(Clone, Copy)]
pub enum NameRow {
    None,
    Raw(TextPart),
    // with the module and the type that a formatter needs
    Typed(TextPart, u16, u32),
    // an inlined function, by module and inlinee
    Id(u16, u32),
}

// Beside `NameRow`, and not one generic enum with it: that its cases borrow the text is a rule of the project.
#[derive(Clone, Copy)]
pub enum Name<'a> {
    None,
    Raw(&'a [u8]),
    Typed(&'a [u8], u16, u32),
    Id(u16, u32),
}

impl NameRow {
    // A part that lies outside the text is no name.
    pub fn name<'a>(&self, text: &'a [u8]) -> Name<'a>
        ensures { spelled result ≡ name_of text.now self.now }
    {
        match self {
            NameRow::None => Name::None,
            NameRow::Raw(part) => part_of(text, *part).map_or(Name::None, Name::Raw),
            NameRow::Typed(part, module, number) => part_of(text, *part).map_or(
                Name::None,
                |bytes| Name::Typed(bytes, *module, *number),
            ),
            NameRow::Id(module, inlinee) => Name::Id(*module, *inlinee),
        }
    }
}

pub fn part_of<'a>(text: &'a [u8], part: TextPart) -> Option<&'a [u8]>
    ensures { option_map (λ x. x.now) result ≡ bytes_of text.now part }
{
    let start = part.start as usize;
    text.get(start..start + part.length as usize)
}
