use crate::{Body, import_of, variables_of};
use ob_base::{List, Text, Units};
use ob_names::NameForm;
use ob_tree::{CellTree, ImportSpec, ImportTree, SpecForm};
use std::alloc::Global;
use std::test::Fail;

fn text(alloc: Global, name: &str) -> Result<Text, Fail> {
    Ok(Text::from_string(String::from_str(alloc, name)?))
}

fn spec(alloc: Global, form: SpecForm, source: &str) -> Result<ImportSpec, Fail> {
    let source = text(alloc, source)?;
    Ok(ImportSpec {
        form,
        source,
        alias: None,
    })
}

#[test]
fn an_unreadable_text_is_a_variable_that_fails(rt: HostRuntime) -> Result<(), Fail> {
    let variables = variables_of(rt.alloc(), None)?;
    assert_eq!(rt; variables.len(), 1);
    for variable in variables.as_slice() {
        assert!(rt; variable.body == Body::Unreadable);
    }
    Ok(())
}

#[test]
fn a_view_is_imported_under_two_names(rt: HostRuntime) -> Result<(), Fail> {
    let alloc = rt.alloc();
    let mut specs = List::new(alloc);
    specs.push(spec(alloc, SpecForm::Viewof, "a")?)?;
    specs.push(spec(alloc, SpecForm::Plain, "a")?)?;
    let tree = CellTree::Import(ImportTree {
        specs,
        with: None,
        from: Units::from_str(alloc, "lib")?,
    });
    match import_of(alloc, &tree)? {
        Some(clause) => {
            assert_eq!(rt; clause.pairs.len(), 2);
            if let Some(pair) = clause.pairs.get(0) {
                assert!(rt; pair.alias.form == NameForm::Viewof);
            }
        }
        None => assert!(rt; false),
    }
    Ok(())
}
