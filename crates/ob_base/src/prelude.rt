/// The texts of the builtins that are written in the language itself: `map`, `filter`, `forEach`,
/// `some`, `every`, `reduce` and `Array.from`, in this order (after ECMA-262, "Properties of the
/// Array Prototype Object"; the texts are this project's).
pub const PRELUDE_TEXTS: [&str; 7] = [
    "function (a, f) { const n = a.length; const r = []; for (let i = 0; i < n; i++) { r.push(f(a[i], i, a)); } return r; }",
    "function (a, f) { const n = a.length; const r = []; for (let i = 0; i < n; i++) { const v = a[i]; if (f(v, i, a)) { r.push(v); } } return r; }",
    "function (a, f) { const n = a.length; for (let i = 0; i < n; i++) { f(a[i], i, a); } }",
    "function (a, f) { const n = a.length; for (let i = 0; i < n; i++) { if (f(a[i], i, a)) { return true; } } return false; }",
    "function (a, f) { const n = a.length; for (let i = 0; i < n; i++) { if (!f(a[i], i, a)) { return false; } } return true; }",
    "function (a, f, v, given) { let r = v; let i = 0; if (!given) { if (a.length === 0) { throw new TypeError(\"bad argument\"); } r = a[0]; i = 1; } const n = a.length; for (; i < n; i++) { r = f(r, a[i], i, a); } return r; }",
    "function (x, f) { const n = x.length; const r = []; for (let i = 0; i < n; i++) { r.push(f === undefined ? x[i] : f(x[i], i)); } return r; }",
];
