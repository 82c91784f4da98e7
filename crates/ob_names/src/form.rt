ghost use Rattle.std.specs.Prelude.{◌≡◌, IfOk};
ghost use Rattle.ob_names.specs.Forms.{name_form};

use ob_base::{NoMemory, Text};
use ob_tree::SpecForm;
use std::alloc::Global;

/// How a name is written, or which part of a cell it stands for (this project): as it is, after
/// `viewof`, after `mutable`, or the first value of a mutable, which no text names.
#[derive(Clone, Copy, Debug, PartialEq, Eq, Hash)]
pub enum NameForm {
    Plain,
    Viewof,
    Mutable,
    Initial,
}

/// A name with its form.
#[derive(Debug, Drop)]
pub struct NameRef {
    pub form: NameForm,
    pub name: Text,
}

impl NameRef {
    /// The same name.
    ///
    /// # Errors
    /// `NoMemory` where an allocation is refused.
    pub fn copy(&self, alloc: Global) -> Result<NameRef, NoMemory>
        ensures { IfOk result (λ copy. copy ≡ self.now) }
    {
        let name = self.name.copy(alloc)?;
        Ok(NameRef {
            form: self.form,
            name,
        })
    }
}

/// The form of a name after what stands before it in a text.
pub fn form_of(form: SpecForm) -> NameForm
    ensures { result ≡ name_form form }
{
    match form {
        SpecForm::Plain => NameForm::Plain,
        SpecForm::Viewof => NameForm::Viewof,
        SpecForm::Mutable => NameForm::Mutable,
    }
}
