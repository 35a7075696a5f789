//! The texts of the workloads (docs/COMMANDS.md, "Workloads").

/// A parallel merge sort of the input, and a test of what comes of it.
pub const SORT_SOURCE: &[u8] = b"void merge(int *a, int *t, int lo, int mid, int hi) {
  int i = lo;
  int j = mid;
  int k = lo;
  while (k < hi) {
    if (i < mid && j < hi) {
      int x = a[i];
      int y = a[j];
      if (x <= y) { t[k] = x; i = i + 1; } else { t[k] = y; j = j + 1; }
    } else if (i < mid) {
      t[k] = a[i];
      i = i + 1;
    } else if (j < hi) {
      t[k] = a[j];
      j = j + 1;
    }
    k = k + 1;
  }
  for (k = lo; k < hi; k = k + 1) { a[k] = t[k]; }
}
void sort(int *a, int *t, int lo, int hi) {
  if (hi - lo < 2) { return; }
  int mid = lo + (hi - lo) / 2;
  cobegin {
    { sort(a, t, lo, mid); }
    { sort(a, t, mid, hi); }
  }
  merge(a, t, lo, mid, hi);
}
int main(int *in, int n) {
  if (n < 1) { return 0; }
  int *t = calloc(n, sizeof(int));
  sort(in, t, 0, n);
  int bad = 0;
  int sum = in[0];
  for (int p = 1; p < n; p = p + 1) {
    int u = in[p - 1];
    int v = in[p];
    if (v < u) { bad = bad + 1; }
    sum = sum + v;
  }
  print(in[0]);
  print(bad);
  print(sum);
  return 0;
}
";

/// What the checker needs to accept it.
pub const SORT_QUALS: &[u8] = b"0 <= lo
0 <= mid
lo <= mid
mid <= hi
lo <= i
mid <= j
lo <= k
1 <= p
off(a) + hi <= len(a)
off(t) + hi <= len(t)
off(a) + lo <= @
@ < off(a) + hi
off(a) + mid <= @
@ < off(a) + mid
off(t) + lo <= @
@ < off(t) + hi
off(t) + mid <= @
@ < off(t) + mid
";

/// Each iteration reads one number of the input, and writes four elements.
pub const STRIDE_SOURCE: &[u8] = b"int main(int *in, int n) {
  if (n < 1) { return 0; }
  int *a = calloc(4 * n, sizeof(int));
  foreach (i, 0, n) {
    int j = 0;
    while (j < 4) { a[4 * i + j] = in[i] + j; j = j + 1; }
  }
  print(a[0]);
  print(a[4 * n - 1]);
  return 0;
}
";

/// What the checker needs to accept it.
pub const STRIDE_QUALS: &[u8] = b"0 <= j
4*i <= @
@ < 4*i + 4
";
