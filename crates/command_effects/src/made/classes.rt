//! Lists of classes.
ghost use Rattle.std.specs.Prelude.{◌≡◌, fold, IfOk, OnOk};
ghost use Rattle.command_rules.specs.Effects.{with_class, without_classes};
ghost use Rattle.command_rules.specs.ProfileEffects.{has_clauth};

use access_levels::Id;
use racf_profiles::{Classes, NoMemory, User};
use std::alloc::Global;

/// The classes with those of CLAUTH behind them, each once, and then without those of NOCLAUTH.
pub(super) fn classes_after(
    alloc: Global,
    old: &[Id],
    added: &[Id],
    gone: &[Id],
) -> Result<Classes, NoMemory>
    ensures { IfOk result (λ classes. classes ≡ without_classes gone.now (fold with_class old.now added.now)) }
{
    let all = with_classes(alloc, old, added)?;
    Ok(Classes {
        items: without_classes(alloc, all.as_slice(), gone)?,
    })
}

/// The classes with others behind them, each once.
pub(super) fn with_classes(alloc: Global, old: &[Id], added: &[Id]) -> Result<Vec<Id>, NoMemory>
    ensures { IfOk result (λ classes. classes.items ≡ fold with_class old.now added.now) }
{
    let mut classes = Vec::from_slice(alloc, old)?;
    for name in added {
        add_class(&mut classes, *name)?;
    }
    Ok(classes)
}

/// One more class, unless it is there.
pub(super) fn add_class(classes: &mut Vec<Id>, name: Id) -> Result<(), NoMemory>
    ensures { OnOk result (classes.new.items ≡ with_class classes.old.items name) }
{
    if classes.as_slice().contains(&name) {
        return Ok(());
    }
    classes.push(name)?;
    Ok(())
}

/// Whether the user has the class in his CLAUTH list.
pub(crate) fn has_clauth(user: &User, class: Id) -> bool
    ensures { result ≡ has_clauth class user.now }
{
    user.classes.items.iter().any(|other| *other == class)
}

/// The classes without those that go.
pub(super) fn without_classes(
    alloc: Global,
    classes: &[Id],
    gone: &[Id],
) -> Result<Vec<Id>, NoMemory>
    ensures { IfOk result (λ left. left.items ≡ without_classes gone.now classes.now) }
{
    classes
        .iter()
        .copied()
        .filter(|name| !gone.contains(name))
        .collect(alloc)
}
