//! The texts of four modules that the examples and the tests know. `docs/LANGUAGE.md` tells the language; each text is
//! the canonical one of its module.
#![tactic(auto)]

/// Two cells with a number each, to which numbers are added.
pub const COUNTER: &[u8] = b"domlock 1
root CELL 2 { val: int }
op add(r: CELL, n: int) allocs 0 fuel 0 {
  var v: int;
  v = r.val;
  v = v + n;
  r.val = v;
  return v;
}
op get(r: CELL) allocs 0 fuel 0 {
  var v: int;
  v = r.val;
  return v;
}
";

/// Four skew heaps: `insert` adds a number, `pop` takes the least, `meld` moves one heap into another.
pub const SKEW: &[u8] = b"domlock 1
root HEAP 4 { top: NODE }
node NODE { key: int, left: NODE, right: NODE }
op insert(r: HEAP, k: int) allocs 1 fuel 100000 {
  var a: NODE, b: NODE, t: NODE, l: NODE, x: int, y: int;
  b = new NODE;
  b.key = k;
  a = r.top;
  if (a == null) {
    r.top = b;
    return 0;
  }
  x = a.key;
  if (k < x) {
    t = a;
    a = b;
    b = t;
  }
  r.top = a;
  y = b.key;
  while (b != null) {
    t = a.right;
    l = a.left;
    a.right = l;
    if (t == null) {
      a.left = b;
      b = null;
    } else {
      x = t.key;
      if (x <= y) {
        a.left = t;
        a = t;
      } else {
        a.left = b;
        a = b;
        b = t;
        y = x;
      }
    }
  }
  return 0;
}
op pop(r: HEAP) allocs 0 fuel 100000 {
  var a: NODE, b: NODE, t: NODE, l: NODE, h: NODE, x: int, y: int, m: int;
  h = r.top;
  if (h == null) {
    return -1;
  }
  m = h.key;
  a = h.left;
  b = h.right;
  h.left = null;
  h.right = null;
  if (a == null) {
    a = b;
    b = null;
  }
  if (b != null) {
    x = a.key;
    y = b.key;
    if (y < x) {
      t = a;
      a = b;
      b = t;
      y = x;
    }
  }
  r.top = a;
  h = null;
  while (b != null) {
    t = a.right;
    l = a.left;
    a.right = l;
    if (t == null) {
      a.left = b;
      b = null;
    } else {
      x = t.key;
      if (x <= y) {
        a.left = t;
        a = t;
      } else {
        a.left = b;
        a = b;
        b = t;
        y = x;
      }
    }
  }
  return m;
}
op meld(r: HEAP, s: HEAP) allocs 0 fuel 100000 {
  var a: NODE, b: NODE, t: NODE, l: NODE, x: int, y: int;
  if (r == s) {
    return 0;
  }
  a = r.top;
  b = s.top;
  s.top = null;
  if (a == null) {
    a = b;
    b = null;
  }
  if (b != null) {
    x = a.key;
    y = b.key;
    if (y < x) {
      t = a;
      a = b;
      b = t;
      y = x;
    }
  }
  r.top = a;
  s = null;
  while (b != null) {
    t = a.right;
    l = a.left;
    a.right = l;
    if (t == null) {
      a.left = b;
      b = null;
    } else {
      x = t.key;
      if (x <= y) {
        a.left = t;
        a = t;
      } else {
        a.left = b;
        a = b;
        b = t;
        y = x;
      }
    }
  }
  return 0;
}
";

/// Two treaps, whose priorities are arguments: `insert`, `find`, `delete`.
pub const TREAP: &[u8] = b"domlock 1
root TREE 2 { top: NODE }
node NODE { key: int, prio: int, left: NODE, right: NODE }
op insert(r: TREE, k: int, p: int) allocs 1 fuel 100000 {
  var n: NODE, q: NODE, c: NODE, a: NODE, b: NODE, x: int, y: int, d: int;
  c = r.top;
  while (c != null) {
    x = c.key;
    if (x == k) {
      return 0;
    }
    if (k < x) {
      c = c.left;
    } else {
      c = c.right;
    }
  }
  c = r.top;
  y = 1;
  while (y == 1) {
    y = 0;
    if (c != null) {
      x = c.prio;
      if (p <= x) {
        y = 1;
        x = c.key;
        q = c;
        if (k < x) {
          d = 0;
          c = q.left;
        } else {
          d = 1;
          c = q.right;
        }
      }
    }
  }
  n = new NODE;
  n.key = k;
  n.prio = p;
  if (q == null) {
    r.top = n;
  } else {
    if (d == 0) {
      q.left = n;
    } else {
      q.right = n;
    }
  }
  q = null;
  a = n;
  b = n;
  while (c != null) {
    x = c.key;
    if (x < k) {
      if (a == n) {
        a.left = c;
      } else {
        a.right = c;
      }
      a = c;
      c = a.right;
      a.right = null;
    } else {
      if (b == n) {
        b.right = c;
      } else {
        b.left = c;
      }
      b = c;
      c = b.left;
      b.left = null;
    }
  }
  return 1;
}
op find(r: TREE, k: int) allocs 0 fuel 100000 {
  var c: NODE, x: int;
  c = r.top;
  r = null;
  while (c != null) {
    x = c.key;
    if (x == k) {
      return 1;
    }
    if (k < x) {
      c = c.left;
    } else {
      c = c.right;
    }
  }
  return 0;
}
op delete(r: TREE, k: int) allocs 0 fuel 100000 {
  var q: NODE, c: NODE, a: NODE, b: NODE, t: NODE, x: int, y: int, d: int, u: int, v: int;
  c = r.top;
  y = 1;
  while (y == 1) {
    y = 0;
    if (c != null) {
      x = c.key;
      if (x != k) {
        y = 1;
        q = c;
        if (k < x) {
          d = 0;
          c = q.left;
        } else {
          d = 1;
          c = q.right;
        }
      }
    }
  }
  if (c == null) {
    return 0;
  }
  y = 1;
  while (y == 1) {
    a = c.left;
    b = c.right;
    t = a;
    x = 0;
    if (a == null) {
      t = b;
      x = 1;
    } else {
      if (b != null) {
        u = a.prio;
        v = b.prio;
        if (u < v) {
          t = b;
          x = 1;
        }
      }
    }
    if (t == null) {
      y = 0;
    } else {
      if (x == 0) {
        a = t.right;
        c.left = a;
        t.right = c;
      } else {
        a = t.left;
        c.right = a;
        t.left = c;
      }
      if (q == null) {
        r.top = t;
      } else {
        if (d == 0) {
          q.left = t;
        } else {
          q.right = t;
        }
      }
      q = t;
      if (x == 0) {
        d = 1;
      } else {
        d = 0;
      }
    }
  }
  if (q == null) {
    r.top = null;
  } else {
    if (d == 0) {
      q.left = null;
    } else {
      q.right = null;
    }
  }
  return 1;
}
";

/// Three lists. `bump` lets its root go before it walks, `walk` keeps it; `few` and `six` have few turns.
pub const LISTS: &[u8] = b"domlock 1
root LIST 3 { head: CELL }
node CELL { val: int, next: CELL }
op push(r: LIST, v: int) allocs 1 fuel 0 {
  var c: CELL, h: CELL;
  c = new CELL;
  c.val = v;
  h = r.head;
  c.next = h;
  r.head = c;
  return 0;
}
op pop(r: LIST) allocs 0 fuel 0 {
  var c: CELL, d: CELL, x: int;
  c = r.head;
  if (c == null) {
    return -1;
  }
  x = c.val;
  d = c.next;
  r.head = d;
  return x;
}
op bump(r: LIST, n: int) allocs 0 fuel 100000 {
  var c: CELL, x: int;
  c = r.head;
  r = null;
  while (c != null) {
    x = c.val;
    x = x + n;
    c.val = x;
    c = c.next;
  }
  return 0;
}
op walk(r: LIST, n: int) allocs 0 fuel 100000 {
  var c: CELL, x: int;
  c = r.head;
  while (c != null) {
    x = c.val;
    x = x + n;
    c.val = x;
    c = c.next;
  }
  return 0;
}
op few(r: LIST, n: int) allocs 0 fuel 3 {
  var c: CELL, x: int;
  c = r.head;
  r = null;
  while (c != null) {
    x = c.val;
    x = x + n;
    c.val = x;
    c = c.next;
  }
  return 0;
}
op six(r: LIST, n: int) allocs 0 fuel 6 {
  var c: CELL, x: int;
  c = r.head;
  r = null;
  while (c != null) {
    x = c.val;
    x = x + n;
    c.val = x;
    c = c.next;
  }
  return 0;
}
op sum(r: LIST) allocs 0 fuel 100000 {
  var c: CELL, x: int, y: int;
  c = r.head;
  r = null;
  while (c != null) {
    x = c.val;
    y = y + x;
    c = c.next;
  }
  return y;
}
op shift(r: LIST, s: LIST) allocs 0 fuel 0 {
  var c: CELL;
  if (r == s) {
    return 0;
  }
  c = r.head;
  r.head = null;
  s.head = c;
  return 1;
}
op clear(r: LIST) allocs 0 fuel 0 {
  r.head = null;
  return 0;
}
";
