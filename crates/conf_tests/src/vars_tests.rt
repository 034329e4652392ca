use boot_model::Vars;
use std::alloc::Global;
use std::test::Fail;

// Sets those of a system with two slots, not in the order of their names.
fn sets(vars: &mut Vars) -> bool {
    vars.set("ORDER", "A B").is_ok()
        && vars.set("B_OK", "0").is_ok()
        && vars.set("A_OK", "1").is_ok()
}

fn has_names(vars: &Vars) -> bool {
    let first = vars.name(0) == Some("A_OK") && vars.name(1) == Some("B_OK");
    first && vars.name(2) == Some("ORDER") && vars.name(3).is_none()
}

fn has_values(vars: &Vars, order: &str, b_ok: Option<&str>, count: usize) -> bool {
    let there = vars.get("ORDER") == Some(order) && vars.get("A_OK") == Some("1");
    there && vars.get("B_OK") == b_ok && vars.get("B").is_none() && vars.len() == count
}

fn overwrites(vars: &mut Vars) -> bool {
    let before = has_values(vars, "A B", Some("0"), 3);
    before && vars.set("B_OK", "1").is_ok() && has_values(vars, "A B", Some("1"), 3)
}

// Removes one that is there and one that is not.
fn removes(vars: &mut Vars) -> bool {
    vars.remove("B_OK");
    vars.remove("B_TRY");
    has_values(vars, "A B", None, 2)
}

// Whether a copy stays as it was.
fn copies(vars: &mut Vars) -> bool {
    match vars.copy() {
        Ok(copied) => {
            let changed = removes(vars) && vars.set("ORDER", "B A").is_ok();
            changed && has_values(vars, "B A", None, 2) && has_values(&copied, "A B", Some("1"), 3)
        }
        Err(_) => false,
    }
}

fn are_right(vars: &mut Vars) -> bool {
    sets(vars) && has_names(vars) && overwrites(vars) && copies(vars)
}

fn new_ones_are_right(alloc: Global) -> bool {
    let mut vars = Vars::new(alloc);
    are_right(&mut vars)
}

#[test]
fn sets_removes_and_copies(rt: HostRuntime) -> Result<(), Fail> {
    assert!(rt; new_ones_are_right(rt.alloc()));
    Ok(())
}
