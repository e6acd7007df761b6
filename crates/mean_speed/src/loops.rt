//! The programs that are run.

use std::alloc::{AllocError, Global};

/// The text of the loop of a name, with so many turns or bytes.
pub fn text_of(alloc: Global, name: &str, count: u64) -> Result<Option<String>, AllocError> {
    let text = match name {
        // A turn spends 9 units: 1 of its own, 3 of the test, 3 of the sum and 2 of the step.
        "sum" => format!(in alloc;
            "int main(void)\n{{\n    int sum = 0;\n    for (int i = 0; i < {count}; i++)\n        sum += i;\n    return sum & 1;\n}}\n"
        )?,
        "array" => format!(in alloc;
            "int main(void)\n{{\n    int a[64];\n    for (int k = 0; k < 64; k++)\n        a[k] = k;\n    int sum = 0;\n    for (int i = 0; i < {count}; i++)\n        for (int k = 0; k < 64; k++)\n            sum += a[k];\n    return sum & 1;\n}}\n"
        )?,
        "calls" => format!(in alloc;
            "int next(int n)\n{{\n    return n + 1;\n}}\n\nint main(void)\n{{\n    int sum = 0;\n    for (int i = 0; i < {count}; i++)\n        sum = next(sum);\n    return sum & 1;\n}}\n"
        )?,
        "bytes" => format!(in alloc;
            "char bytes[{count}];\n\nint main(void)\n{{\n    bytes[{count} - 1] = 1;\n    return bytes[0];\n}}\n"
        )?,
        "local" => format!(in alloc;
            "int main(void)\n{{\n    char bytes[{count}];\n    bytes[0] = 1;\n    return bytes[0];\n}}\n"
        )?,
        _ => return Ok(None),
    };
    Ok(Some(text))
}
