ghost use Rattle.std.specs.Prelude.{◌≡◌, length, map, IfOk};
ghost use Rattle.ob_tree.specs.Walks.{function_walk};
ghost use Rattle.ob_names.specs.Meanings.{meaning_of};
ghost use Rattle.ob_names.specs.Kept.{bound_of, mention_of};
ghost use Rattle.ob_names.specs.Resolved.{bindings_of, bindings_from, uses_of};
ghost use Rattle.ob_names.specs.Flags.{use_in, flagged, AreFlags};

use crate::form::form_of;
use crate::free::free_among;
use crate::meaning::Meaning;
use crate::name_set::NameSet;
use crate::slots::{Binding, Slots, Use};
use crate::walker::{Bound, Mention};
use crate::walks::walked_function;
use ob_base::{List, NoMemory};
use ob_tree::Function;
use std::alloc::Global;

/// What each name in a function means, and what the function binds (ECMA-262, "ResolveBinding", in
/// the subset of this language). The function counts as a function expression, so its own name is a
/// binding around it.
///
/// # Errors
/// `NoMemory` where an allocation is refused, or where a binding or a free name would get a number
/// of 2^32 or more.
pub fn resolve_locals(alloc: Global, function: &Function) -> Result<Slots, NoMemory>
    ensures bindings { IfOk result (λ slots. slots.bindings ≡ bindings_of (function_walk function.now)) }
    ensures uses { IfOk result (λ slots. slots.uses ≡ uses_of (function_walk function.now)) }
{
    let walker = walked_function(alloc, function)?;
    let mentions = walker.mentions();
    let free = free_among(alloc, mentions)?;
    let bindings = resolved_bindings(alloc, walker.bound(), mentions)?;
    let uses = resolved_uses(alloc, &free, mentions)?;
    Ok(Slots { bindings, uses })
}

/// The bindings, each with whether a mention captures it.
fn resolved_bindings(
    alloc: Global,
    bound: &[Bound<'_>],
    mentions: &[Mention<'_>],
) -> Result<List<Binding>, NoMemory>
    ensures { IfOk result (λ bindings. bindings ≡ bindings_from (map mention_of mentions.now) 0 (map bound_of bound.now)) }
{
    let flags = captured_flags(alloc, mentions, bound.len())?;
    let mut bindings = List::new(alloc);
    for (number, binding) in bound.iter().enumerate() {
        bindings.push(Binding {
            captured: flags[number],
            constant: binding.constant,
        })?;
    }
    Ok(bindings)
}

/// For each number below the count, whether a mention captures the binding of that number.
fn captured_flags(
    alloc: Global,
    mentions: &[Mention<'_>],
    count: usize,
) -> Result<Vec<bool>, NoMemory>
    ensures count { IfOk result (λ flags. length flags.items ≡ count) }
    ensures flags { IfOk result (λ flags. AreFlags (map mention_of mentions.now) flags.items) }
{
    let mut flags = vec![in alloc; false; count]?;
    for mention in mentions {
        flag(&mut flags, mention.means);
    }
    Ok(flags)
}

fn flag(flags: &mut Vec<bool>, means: Meaning)
    ensures { flags.new.items ≡ flagged flags.old.items (meaning_of means) }
{
    if let Meaning::Captured(number) = means {
        if number < flags.len() {
            flags[number] = true;
        }
    }
}

/// What each mention uses.
fn resolved_uses<'a>(
    alloc: Global,
    free: &NameSet<'a>,
    mentions: &[Mention<'a>],
) -> Result<List<Use>, NoMemory>
    ensures { IfOk result (λ uses. uses ≡ map (use_in free.now) (map mention_of mentions.now)) }
{
    let mut uses = List::new(alloc);
    for mention in mentions {
        uses.push(resolved_use(free, mention)?)?;
    }
    Ok(uses)
}

fn resolved_use<'a>(free: &NameSet<'a>, mention: &Mention<'a>) -> Result<Use, NoMemory>
    ensures { IfOk result (λ u. u ≡ use_in free.now (mention_of mention.now)) }
{
    match mention.means {
        Meaning::Free => Ok(Use::Input(small(free.place(form_of(mention.form), mention.name))?)),
        Meaning::Local(number) => Ok(Use::Local(small(number)?)),
        Meaning::Captured(number) => Ok(Use::Captured(small(number)?)),
    }
}

fn small(number: usize) -> Result<u32, NoMemory>
    ensures { IfOk result (λ n. n ≡ number) }
{
    match u32::try_from(number) {
        Ok(number) => Ok(number),
        Err(_) => Err(NoMemory),
    }
}
