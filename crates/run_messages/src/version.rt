/// The toolchain that the program is proved with, by its version and the sum of its logic.
pub(crate) const PROVED_WITH: &str = "rattle-kit-13f logic dac8208d650f15bf";
