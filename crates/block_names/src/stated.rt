ghost use Rattle.std.specs.Prelude.{◌≡◌, map, All, IfOk, IsUtf8, OnOk};
ghost use Rattle.desk_settings.specs.Names.{each_once};
ghost use Rattle.desk_settings.specs.Selected.{slot_field};
ghost use Rattle.block_names.specs.Numbered as spec;

use desk_io::{Memory, Text};
use desk_settings::Names;
use std::alloc::Global;

/// The text, which is in UTF-8.
pub(crate) fn text_of(text: &Text) -> &str
    ensures same { result.now ≡ text.now }
    ensures text { IsUtf8 text.now }
{
    let text = text.as_str();
    // Its clause says that these are UTF-8.
    let _bytes = text.as_bytes();
    text
}

/// The stated names, each once.
pub(crate) fn names_of(alloc: Global, stated: &[Text]) -> Result<Names, Memory>
    ensures names { IfOk result (λ names. names ≡ each_once stated.now) }
    ensures text { OnOk result (All IsUtf8 stated.now) }
{
    let mut names = Names::new(alloc);
    for name in stated {
        names.add(text_of(name))?;
    }
    Ok(names)
}

// The number of a name, if it is not empty.
fn number_of(names: &Names, name: &str) -> Option<usize>
    ensures { result ≡ spec.number_of_name names.now name.now }
{
    if name.is_empty() {
        None
    } else {
        names.number(name.as_bytes())
    }
}

/// By slot the number of its stated name.
pub(crate) fn numbers_of(
    alloc: Global,
    names: &Names,
    stated: &[Text],
) -> Result<Vec<Option<usize>>, Memory>
    ensures { IfOk result (λ numbers. numbers.items ≡ map (spec.number_of_name names.now) stated.now) }
{
    let mut numbers = Vec::new(alloc);
    for name in stated {
        numbers.push(number_of(names, name.as_str()))?;
    }
    Ok(numbers)
}

/// The stated name of a slot; it is empty past the last one.
pub(crate) fn name_at(stated: &[Text], slot: usize) -> &str
    ensures { result.now ≡ slot_field stated.now slot }
{
    if slot < stated.len() {
        stated[slot].as_str()
    } else {
        ""
    }
}
