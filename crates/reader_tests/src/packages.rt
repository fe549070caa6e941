//! A copy of the first packages. What packages do is in `checks/sessions`, how much they hold in `checks/calls`.
use package_table::Packages;
use package_table::standardized::{COMMON_LISP, COMMON_LISP_USER, KEYWORD};
use std::alloc::Global;
use std::test::Fail;

// Whether the packages have the names of the first ones, and as many symbols.
fn are_first(alloc: Global, packages: &Packages) -> Result<bool, Fail> {
    let names: [&[u8]; 3] = [COMMON_LISP, COMMON_LISP_USER, KEYWORD];
    Ok(
        packages.package_names(alloc)?.as_slice() == names.as_slice()
            && packages.externals(alloc, COMMON_LISP)?.len() == 31
            && packages.own(alloc, KEYWORD)?.len() == 22,
    )
}

#[test]
fn first_packages(rt: HostRuntime) -> Result<(), Fail> {
    let alloc = rt.alloc();
    let packages = Packages::new(alloc)?.copy(alloc)?;
    assert!(rt; are_first(alloc, &packages)?);
    Ok(())
}
