// The data that are made for measured runs.
use csr_data::{generate, print_values};
use std::test::Fail;

#[test]
fn made_data(rt: HostRuntime) -> Result<(), Fail> {
    let alloc = rt.alloc();
    for (seed, size, wanted) in [
        (
            1,
            2,
            "n 2\nm 2\nnnz 4\nindex 0 2 4\ncol 0 1 0 1\na 758 515 10 212\nx 749 767\ny 0 0\n",
        ),
        (
            1,
            4,
            "n 4\nm 4\nnnz 8\nindex 0 2 4 6 8\ncol 0 2 1 3 1 2 1 3\na 758 515 10 212 767 60 89 137\nx 966 978 495 311\ny 0 0 0 0\n",
        ),
    ] {
        let values = generate(alloc, seed, size)?;
        let text = print_values(alloc, &values)?;
        assert!(rt; text.as_slice() == wanted.as_bytes(), "{wanted}");
    }
    Ok(())
}
