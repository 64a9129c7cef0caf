//! The text of tags.

ghost use Rattle.std.specs.Prelude.{◌≡◌, ◌++◌, OnOk};
ghost use Rattle.diagram.specs.Trees.{attribute_text, attributes_text, end_tag, start_tag};
ghost use Rattle.diagram.specs.Given.{all_given};

use crate::escape::push_escaped;
use crate::name::{Key, Tag};
use mig_base::NoMemory;

/// An attribute of an element, with its value before it is escaped.
#[derive(Clone, Copy)]
pub(crate) struct Attribute<'a> {
    pub key: Key,
    pub value: &'a [u8],
}

/// Appends an attribute, with a space before it.
fn push_attribute(bytes: &mut Vec<u8>, key: Key, value: &[u8]) -> Result<(), NoMemory>
    ensures { OnOk result (bytes.new.items ≡ bytes.old.items ++ attribute_text (key, value.now)) }
{
    bytes.extend_from_slice(key.start())?;
    push_escaped(bytes, value)?;
    bytes.push(b'"')?;
    Ok(())
}

/// Appends attributes, each with a space before it.
fn push_attributes(bytes: &mut Vec<u8>, attributes: &[Attribute]) -> Result<(), NoMemory>
    ensures { OnOk result (bytes.new.items ≡
        bytes.old.items ++ attributes_text (all_given attributes.now)) }
{
    for attribute in attributes {
        push_attribute(bytes, attribute.key, attribute.value)?;
    }
    Ok(())
}

/// Appends the tag that begins an element.
pub(crate) fn push_start(
    bytes: &mut Vec<u8>,
    tag: Tag,
    attributes: &[Attribute],
) -> Result<(), NoMemory>
    ensures { OnOk result (bytes.new.items ≡
        bytes.old.items ++ start_tag tag (all_given attributes.now)) }
{
    bytes.extend_from_slice(tag.start())?;
    push_attributes(bytes, attributes)?;
    bytes.push(b'>')?;
    Ok(())
}

/// Appends the tag that ends an element.
pub(crate) fn push_end(bytes: &mut Vec<u8>, tag: Tag) -> Result<(), NoMemory>
    ensures { OnOk result (bytes.new.items ≡ bytes.old.items ++ end_tag tag) }
{
    bytes.extend_from_slice(tag.end())?;
    Ok(())
}
