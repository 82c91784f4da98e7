ghost use Rattle.std.specs.Prelude.{◌≡◌, IfOk};
ghost use Rattle.ob_base.specs.Builtins.{is_builtin_name};
ghost use Rattle.ob_base.specs.Integers.{InRange};
ghost use Rattle.ob_hosts.specs.Table.{entries};
ghost use Rattle.ob_hosts.specs.Value.{host_value};

use crate::{HostCode, HostError, HostFn, HostTable};
use ob_base::Text;
use std::alloc::{AllocError, Global};
use std::test::Fail;

fn text(alloc: Global, name: &str) -> Result<Text, AllocError>
    ensures { IfOk result (λ text. text ≡ name.now) }
{
    Ok(Text::from_string(String::from_str(alloc, name)?))
}

#[test]
fn quotients_are_truncated(rt: HostRuntime) -> Result<(), Fail> {
    let alloc = rt.alloc();
    let quot = |a: i64, b: i64| -> Option<i64>
        requires { InRange a × InRange b }
        ensures { result ≡ host_value HostCode.Quot a b }
    { if b == 0 { None } else { Some(a / b) } };
    let call = Box::new(alloc, quot)?;
    let host = HostFn::new(text(alloc, "quot")?, 2, HostCode::Quot, call);
    assert_eq!(rt; host.call(-7, 2), Some(-3));
    assert_eq!(rt; host.call(1, 0), None);
    Ok(())
}

#[test]
fn quotients_are_floored(rt: HostRuntime) -> Result<(), Fail> {
    let alloc = rt.alloc();
    let floor_div = |a: i64, b: i64| -> Option<i64>
        requires { InRange a × InRange b }
        ensures { result ≡ host_value HostCode.FloorDiv a b }
    {
        if b == 0 {
            None
        } else if b < 0 {
            Some((-a).div_euclid(-b))
        } else {
            Some(a.div_euclid(b))
        }
    };
    let call = Box::new(alloc, floor_div)?;
    let host = HostFn::new(text(alloc, "floordiv")?, 2, HostCode::FloorDiv, call);
    assert_eq!(rt; host.call(-7, 2), Some(-4));
    assert_eq!(rt; host.call(7, -2), Some(-4));
    assert_eq!(rt; host.call(-7, -2), Some(3));
    Ok(())
}

#[test]
fn remainders_are_floored(rt: HostRuntime) -> Result<(), Fail> {
    let alloc = rt.alloc();
    let floor_mod = |a: i64, b: i64| -> Option<i64>
        requires { InRange a × InRange b }
        ensures { result ≡ host_value HostCode.Mod a b }
    {
        if b == 0 {
            None
        } else if b < 0 {
            Some(-(-a).rem_euclid(-b))
        } else {
            Some(a.rem_euclid(b))
        }
    };
    let call = Box::new(alloc, floor_mod)?;
    let host = HostFn::new(text(alloc, "mod")?, 2, HostCode::Mod, call);
    assert_eq!(rt; host.call(-7, 2), Some(1));
    assert_eq!(rt; host.call(7, -2), Some(-1));
    assert_eq!(rt; host.call(6, -2), Some(0));
    assert_eq!(rt; host.call(6, 0), None);
    Ok(())
}

#[test]
fn a_table_holds_each_name_once(rt: HostRuntime) -> Result<(), Fail> {
    let alloc = rt.alloc();
    let clamp = |a: i64, _b: i64| -> Option<i64>
        requires { InRange a }
        ensures { result ≡ host_value HostCode.Clamp0 a _b }
    { Some(a.max(0)) };
    let first = HostFn::new(
        text(alloc, "clamp0")?,
        1,
        HostCode::Clamp0,
        Box::new(alloc, clamp)?,
    );
    let mut table = HostTable::new(alloc);
    let name = text(alloc, "clamp0")?;
    assert_eq!(rt; table.find(&name), None);
    assert!(rt; table.add(first).is_ok());
    assert_eq!(rt; table.find(&name), Some(0));
    assert_eq!(rt; table.call(0, -5, 0), Some(0));
    assert!(rt; table.get(1).is_none());
    match table.get(0) {
        Some((held, arity, code)) => {
            assert_eq!(rt; held.as_str(), "clamp0");
            assert_eq!(rt; (arity, code), (1, HostCode::Clamp0));
        }
        None => assert!(rt; false),
    }
    Ok(())
}

#[test]
fn a_second_one_of_a_name_is_handed_back(rt: HostRuntime) -> Result<(), Fail> {
    let alloc = rt.alloc();
    let quot = |a: i64, b: i64| -> Option<i64>
        requires { InRange a × InRange b }
        ensures { result ≡ host_value HostCode.Quot a b }
    { if b == 0 { None } else { Some(a / b) } };
    let first = HostFn::new(
        text(alloc, "quot")?,
        2,
        HostCode::Quot,
        Box::new(alloc, quot)?,
    );
    let second = HostFn::new(
        text(alloc, "quot")?,
        1,
        HostCode::Quot,
        Box::new(alloc, quot)?,
    );
    let mut table = HostTable::new(alloc);
    assert!(rt; table.add(first).is_ok());
    match table.add(second) {
        Err(HostError::HostExists(host)) => assert_eq!(rt; host.arity, 1),
        Err(HostError::NoMemory(_host)) => assert!(rt; false),
        Ok(()) => assert!(rt; false),
    }
    assert_eq!(rt; table.call(0, 7, 2), Some(3));
    Ok(())
}
