//! The names of elements and of attributes.

ghost use Rattle.std.specs.Prelude.{◌≡◌, ◌∷◌};
ghost use Rattle.diagram.specs.Names.{tag_name};
ghost use Rattle.diagram.specs.Trees.{attribute_start, end_tag};

/// The elements of a picture.
#[derive(Clone, Copy)]
pub(crate) enum Tag {
    Svg,
    Title,
    Style,
    Defs,
    Pattern,
    Group,
    Path,
    Text,
}

/// The attributes of elements.
#[derive(Clone, Copy)]
pub(crate) enum Key {
    Namespace,
    ViewBox,
    Width,
    Height,
    Role,
    Id,
    Class,
    PatternUnits,
    Shape,
    Transform,
}

impl Tag {
    /// What begins its tag: `<` and its name.
    pub(crate) fn start(self) -> &'static [u8]
        ensures { result.now ≡ 60 ∷ tag_name self }
    {
        match self {
            Tag::Svg => b"<svg",
            Tag::Title => b"<title",
            Tag::Style => b"<style",
            Tag::Defs => b"<defs",
            Tag::Pattern => b"<pattern",
            Tag::Group => b"<g",
            Tag::Path => b"<path",
            Tag::Text => b"<text",
        }
    }

    /// The tag that ends its element.
    pub(crate) fn end(self) -> &'static [u8]
        ensures { result.now ≡ end_tag self }
    {
        match self {
            Tag::Svg => b"</svg>",
            Tag::Title => b"</title>",
            Tag::Style => b"</style>",
            Tag::Defs => b"</defs>",
            Tag::Pattern => b"</pattern>",
            Tag::Group => b"</g>",
            Tag::Path => b"</path>",
            Tag::Text => b"</text>",
        }
    }
}

impl Key {
    /// What stands before its value, with a space before its name.
    pub(crate) fn start(self) -> &'static [u8]
        ensures { result.now ≡ attribute_start self }
    {
        match self {
            Key::Namespace => b" xmlns=\"",
            Key::ViewBox => b" viewBox=\"",
            Key::Width => b" width=\"",
            Key::Height => b" height=\"",
            Key::Role => b" role=\"",
            Key::Id => b" id=\"",
            Key::Class => b" class=\"",
            Key::PatternUnits => b" patternUnits=\"",
            Key::Shape => b" d=\"",
            Key::Transform => b" transform=\"",
        }
    }
}
