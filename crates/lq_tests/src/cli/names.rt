use super::{ample, status_of};
use lq_shelf::MemSink;
use std::alloc::{AllocError, Global};
use std::process::Abort;
use std::test::Fail;

// What the bodies of the table may use, in lines 1 and 2. A body stands in line 3.
const PRELUDE: &str =
    "struct S{int x;int*y;struct S*z;};int main(void){return 0;}int g(int k){return k;}int*h(int*q){return q;}void v(void){}void pr(void){print(1);}int*al(void){return calloc(1,sizeof(int));}void pp(void){pr();}int w(void){print(1);return 1;}\nvoid f(int a,int*p,struct S*s){\n";

// Bodies, each with the number of the rule that it breaks first, and the column. No rule is broken where the number is 0.
const KEPT: [(&str, u32, u32); 33] = [
    ("a=1;", 0, 0),
    ("a=a+1*2-3/4%5;", 0, 0),
    ("a=-a;", 0, 0),
    ("a=!a;", 0, 0),
    ("a=a<1&&a>2||a<=3&&a>=4;", 0, 0),
    ("a=a==1;", 0, 0),
    ("a=a!=1;", 0, 0),
    ("a=p==0;", 0, 0),
    ("a=0==p;", 0, 0),
    ("a=p!=0;", 0, 0),
    ("a=p[0];", 0, 0),
    ("a=*p;", 0, 0),
    ("a=p[a];", 0, 0),
    ("p=p+1;", 0, 0),
    ("p=p-a;", 0, 0),
    ("p=0;", 0, 0),
    ("p=(0);", 0, 0),
    ("p=calloc(3,sizeof(int));", 0, 0),
    ("s=calloc(a,sizeof(struct S));", 0, 0),
    ("a=s->x;", 0, 0),
    ("p=s->y;", 0, 0),
    ("s=s->z;", 0, 0),
    ("a=s[1].x;", 0, 0),
    ("a=(*s).x;", 0, 0),
    ("a=s->z->x;", 0, 0),
    ("s->x=1;", 0, 0),
    ("s->y=p;", 0, 0),
    ("s->z=0;", 0, 0),
    ("s[0].z=s;", 0, 0),
    ("p[0]=1;", 0, 0),
    ("*p=a;", 0, 0),
    ("a=g(1);", 0, 0),
    ("p=h(p);", 0, 0),
];

const KEPT_TOO: [(&str, u32, u32); 34] = [
    ("p=h(0);", 0, 0),
    ("g(1);", 0, 0),
    ("v();", 0, 0),
    ("print(a);", 0, 0),
    ("if(a);", 0, 0),
    ("if(p!=0);", 0, 0),
    ("while(a<1);", 0, 0),
    ("for(a=0;a<3;a++);", 0, 0),
    ("for(int i=0;i<3;i++)a=i;", 0, 0),
    ("int b;", 0, 0),
    ("int b=a;", 0, 0),
    ("int*q=p;", 0, 0),
    ("int*q=0;", 0, 0),
    ("struct S*t=s;", 0, 0),
    ("foreach(i,0,a){p[i]=i;}", 0, 0),
    ("cobegin{{p[0]=1;}{p[1]=2;}}", 0, 0),
    ("return;", 0, 0),
    ("int**q=calloc(1,sizeof(int*));", 0, 0),
    ("int**q=0;a=**q;", 0, 0),
    ("int**q=0;q[0]=p;", 0, 0),
    ("{int b;}{int b;}", 0, 0),
    ("for(int i=0;i<1;i++);for(int i=0;i<1;i++);", 0, 0),
    ("foreach(i,0,1){}foreach(i,0,1){}", 0, 0),
    ("if(a)int b;int b;", 0, 0),
    ("int main=1;", 0, 0),
    ("int f=a;", 0, 0),
    ("int S;", 0, 0),
    ("p[0]=0;", 0, 0),
    ("cobegin{{int b;}{int b;}}", 0, 0),
    ("foreach(i,0,1){int b;b=1;}", 0, 0),
    ("foreach(i,0,1){for(int k=0;k<1;k++);}", 0, 0),
    ("cobegin{{p[0]=1;}{}}", 0, 0),
    ("foreach(i,0,9,1){}", 0, 0),
    ("foreach(i,0,9,65536){}", 0, 0),
];

const UNKNOWN: [(&str, u32, u32); 29] = [
    ("b=1;", 3, 1),
    ("a=b;", 3, 1),
    ("a=b+c;", 3, 1),
    ("u();", 3, 1),
    ("a=u(1);", 3, 1),
    ("struct T*t;", 3, 1),
    ("struct T*t=0;", 3, 1),
    ("a=s->w;", 3, 1),
    ("a=s[0].w;", 3, 1),
    ("p=calloc(1,sizeof(struct T));", 3, 1),
    ("if(b);", 3, 1),
    ("{a=b;}", 3, 2),
    ("if(a)a=b;", 3, 6),
    ("while(b);", 3, 1),
    ("for(b=0;;);", 3, 5),
    ("for(;b;);", 3, 1),
    ("for(;;b=0);", 3, 7),
    ("int b=b;", 3, 1),
    ("{int b;}b=1;", 3, 9),
    ("for(int i=0;i<1;i++);i=1;", 3, 22),
    ("foreach(i,0,1){}i=1;", 3, 17),
    ("foreach(i,i,1){}", 3, 1),
    ("if(a)int b=1;b=2;", 3, 14),
    ("print(b);", 3, 1),
    ("return b;", 3, 1),
    ("cobegin{{int b;}{b=1;}}", 3, 18),
    ("{a=b;}a=p;", 3, 2),
    ("a=b+p;", 3, 1),
    ("g(b,1);", 3, 1),
];

const DECLARED: [(&str, u32, u32); 24] = [
    ("int a;", 4, 1),
    ("int p=1;", 4, 1),
    ("int b;int b;", 4, 7),
    ("int b;{int b;}", 4, 8),
    ("int b;for(int b=0;;);", 4, 11),
    ("foreach(a,0,1){}", 4, 1),
    ("foreach(i,0,1){int i;}", 4, 16),
    ("foreach(i,0,1){foreach(i,0,1){}}", 4, 16),
    ("for(int i=0;i<1;i++)int i;", 4, 21),
    ("int b;cobegin{{int b;}{}}", 4, 16),
    ("g();", 6, 1),
    ("g(1,2);", 6, 1),
    ("v(1);", 6, 1),
    ("a=g();", 6, 1),
    ("a=v();", 6, 1),
    ("a=v()+1;", 6, 1),
    ("print(v());", 6, 1),
    ("if(v());", 6, 1),
    ("g(v());", 6, 1),
    ("p[v()]=1;", 6, 1),
    ("v()[0]=1;", 6, 1),
    ("a=v().x;", 6, 1),
    ("a=g(1,p);", 6, 1),
    ("int a=p;", 4, 1),
];

const TYPES: [(&str, u32, u32); 27] = [
    ("a=p;", 5, 1),
    ("p=a;", 5, 1),
    ("p=1;", 5, 1),
    ("p=0+0;", 5, 1),
    ("p=-0;", 5, 1),
    ("a=-p;", 5, 1),
    ("a=!p;", 5, 1),
    ("a=p*2;", 5, 1),
    ("a=2/p;", 5, 1),
    ("a=p<p;", 5, 1),
    ("a=p&&a;", 5, 1),
    ("a=p==p;", 5, 1),
    ("a=p==1;", 5, 1),
    ("a=p==a;", 5, 1),
    ("p=1+p;", 5, 1),
    ("p=p+p;", 5, 1),
    ("a=p-p;", 5, 1),
    ("a=a[0];", 5, 1),
    ("a=*a;", 5, 1),
    ("a=0[0];", 5, 1),
    ("a=*0;", 5, 1),
    ("a=p[p];", 5, 1),
    ("a=a->x;", 5, 1),
    ("a=p->x;", 5, 1),
    ("a=p[0].x;", 5, 1),
    ("a=s;", 5, 1),
    ("s=p;", 5, 1),
];

const TYPES_TOO: [(&str, u32, u32); 29] = [
    ("p=s->x;", 5, 1),
    ("a=s->y;", 5, 1),
    ("s->x=p;", 5, 1),
    ("s->y=1;", 5, 1),
    ("p[0]=p;", 5, 1),
    ("a=g(p);", 5, 1),
    ("p=h(1);", 5, 1),
    ("a=h(p);", 5, 1),
    ("p=g(1);", 5, 1),
    ("if(p);", 5, 1),
    ("while(p);", 5, 1),
    ("for(;p;);", 5, 1),
    ("print(p);", 5, 1),
    ("p=calloc(p,sizeof(int));", 5, 1),
    ("p=calloc(1,sizeof(int*));", 5, 1),
    ("int b=p;", 5, 1),
    ("int*q=1;", 5, 1),
    ("int*q=s;", 5, 1),
    ("foreach(i,p,1){}", 5, 1),
    ("foreach(i,0,p){}", 5, 1),
    ("a=a.x;", 5, 1),
    ("a=p.x;", 5, 1),
    ("int**q=0;a=*q;", 5, 10),
    ("int**q=0;q=p;", 5, 10),
    ("a=g(p,1);", 5, 1),
    ("a=v()*p;", 5, 1),
    ("a=p;a=b;", 5, 1),
    ("int*q=-v();", 5, 1),
    ("int*q=5+v();", 5, 1),
];

const STRUCTS_AND_FORKS: [(&str, u32, u32); 21] = [
    ("a=s[0];", 7, 1),
    ("a=*s;", 7, 1),
    ("s[0]=s[1];", 7, 1),
    ("print(*s);", 7, 1),
    ("struct S t;", 7, 1),
    ("a=s[0]+1;", 7, 1),
    ("g(*s);", 7, 1),
    ("if(*s);", 7, 1),
    ("a=s[0]==0;", 7, 1),
    ("cobegin{{print(1);}{}}", 8, 10),
    ("cobegin{{}{pr();}}", 8, 12),
    ("cobegin{{pp();}{}}", 8, 10),
    ("foreach(i,0,1){print(i);}", 8, 16),
    ("foreach(i,0,1){pr();}", 8, 16),
    ("cobegin{{if(a)print(1);}{}}", 8, 15),
    ("foreach(i,0,w()){}", 8, 1),
    ("cobegin{{int*q=calloc(1,sizeof(int));}{}}", 9, 10),
    ("cobegin{{int*q=al();}{}}", 9, 10),
    ("cobegin{{al();}{}}", 9, 10),
    ("foreach(i,0,al()[0]){}", 9, 1),
    ("foreach(i,calloc(1,sizeof(int))[0],1){}", 9, 1),
];

const LOOPS: [(&str, u32, u32); 16] = [
    ("cobegin{{return;}{}}", 10, 10),
    ("foreach(i,0,1){return;}", 10, 16),
    ("foreach(i,0,1){if(a)return;}", 10, 21),
    ("cobegin{{a=1;}{}}", 11, 10),
    ("int b;cobegin{{b=1;}{}}", 11, 16),
    ("foreach(i,0,1){i=1;}", 11, 16),
    ("foreach(i,0,1){a=i;}", 11, 16),
    ("foreach(i,0,1){a++;}", 11, 16),
    ("foreach(i,0,1){for(a=0;;);}", 11, 20),
    ("foreach(i,0,1){for(int k=0;k<1;a++);}", 11, 32),
    ("cobegin{{int b;foreach(i,0,1){b=1;}}{}}", 11, 31),
    ("cobegin{{p=p+1;}{}}", 11, 10),
    ("return 1;", 12, 1),
    ("return a;", 12, 1),
    ("if(a)return 1;", 12, 6),
    ("return p;", 12, 1),
];

const STEPS: [(&str, u32, u32); 5] = [
    ("foreach(i,0,9,0){}", 13, 1),
    ("foreach(i,0,9,65537){}", 13, 1),
    ("foreach(i,0,9,9223372036854775807){}", 13, 1),
    ("foreach(i,b,9,0){}", 3, 1),
    ("{foreach(i,0,9,0){a=b;}}", 13, 2),
];

// A program in one line, likewise.
const PROGRAMS: [(&str, u32, u32); 41] = [
    ("", 1, 1),
    ("void f(){}", 1, 1),
    ("int main(void){return 0;}", 0, 0),
    ("int main(){}", 0, 0),
    ("int main(int*a,int b){}", 0, 0),
    ("int main(int*in,int n){return n;}", 0, 0),
    ("void main(void){}", 1, 1),
    ("int main(int a){}", 1, 1),
    ("int main(int*a){}", 1, 1),
    ("int main(int a,int*b){}", 1, 1),
    ("int*main(){}", 1, 1),
    ("int main(int*a,int b,int c){}", 1, 1),
    ("int main(int**a,int b){}", 1, 1),
    ("int main(){main();return 0;}", 1, 12),
    ("int main(){return main();}", 1, 12),
    ("struct S{int a;};struct S{int b;};int main(){}", 2, 18),
    ("void f(){}int f(){}int main(){}", 2, 11),
    ("int main(){}int main(){}", 2, 13),
    ("struct S{int a;int a;};int main(){}", 2, 1),
    ("struct S{struct S*n;};int main(){}", 0, 0),
    ("struct S{struct T*n;};int main(){}", 3, 1),
    ("struct S{struct T*n;};struct T{int a;};int main(){}", 0, 0),
    ("struct S{struct S n;};int main(){}", 7, 1),
    ("void f(struct T*t){}int main(){}", 3, 1),
    ("struct S{int a;};void f(struct S s){}int main(){}", 7, 18),
    ("struct S{int a;};struct S f(){}int main(){}", 7, 18),
    ("struct T*f(){}int main(){}", 3, 1),
    ("void f(int a,int a){}int main(){}", 4, 1),
    ("void f(int a){int a;}int main(){}", 4, 15),
    ("int f(){return;}int main(){}", 12, 9),
    ("int f(){}int main(){}", 0, 0),
    ("int f(){return 1;}int main(){}", 0, 0),
    ("int*f(){return 0;}int main(){}", 0, 0),
    ("int*f(){return 1;}int main(){}", 5, 9),
    ("int f(){int*p=0;return p;}int main(){}", 5, 17),
    ("void f(){f();}int main(){}", 0, 0),
    ("int main(){f();return 0;}void f(){}", 0, 0),
    (
        "void f(){g();}void g(){f();print(1);}int main(){cobegin{{f();}{}}return 0;}",
        8,
        58,
    ),
    (
        "void f(){g();}void g(){f();}int main(){cobegin{{f();}{}}return 0;}",
        0,
        0,
    ),
    ("int main(){int main=1;return main;}", 0, 0),
    ("int f(int f){return f;}int main(){return f(1);}", 0, 0),
];

// The head of a `foreach` with a step, and what stands before and behind the step.
const BEFORE_STEP: &str =
    "int main(int *in, int n) {\n  if (n < 1) { return 0; }\n  int *a = calloc(4 * n, sizeof(int));\n  foreach (i, 0, 4 * n - 3, ";

const BEHIND_STEP: &str =
    ") {\n    int j = 0;\n    while (j < 4) { a[i + j] = j; j = j + 1; }\n  }\n  print(a[0]);\n  print(a[4 * n - 1]);\n  return 0;\n}\n";

fn joined(alloc: Global, parts: &[&str]) -> Result<Vec<u8>, AllocError> {
    let mut all = Vec::new(alloc);
    for part in parts {
        all.extend_from_slice(part.as_bytes())?;
    }
    Ok(all)
}

// What is written where this rule is broken first.
fn due(alloc: Global, rule: u32, line: &str, column: u32) -> Result<Vec<u8>, AllocError> {
    let rule = rule.to_string(alloc)?;
    let column = column.to_string(alloc)?;
    joined(alloc, &["names N", &rule, " at ", line, ":", &column, "\n"])
}

// Whether a replay of a source tells this rule at this place, or runs it where the rule is 0.
fn tells(
    rt: &impl Abort,
    alloc: Global,
    source: &[u8],
    rule: u32,
    line: &str,
    column: u32,
) -> Result<(), AllocError> {
    let mut out = MemSink::new(alloc, Vec::new(alloc));
    let status = status_of(alloc, &ample(source), &mut out)?;
    if rule == 0 {
        assert!(rt; matches!(status, 0 | 1 | 8 | 13 | 14));
        return Ok(());
    }
    let expected = due(alloc, rule, line, column)?;
    assert_eq!(rt; out.written(), expected.as_slice());
    assert_eq!(rt; status, 4);
    Ok(())
}

// Whether each body of a table tells its rule.
fn bodies_tell(
    rt: &impl Abort,
    alloc: Global,
    rows: &[(&str, u32, u32)],
) -> Result<(), AllocError> {
    for (body, rule, column) in rows {
        let source = joined(alloc, &[PRELUDE, body, "\n}\n"])?;
        tells(rt, alloc, &source, *rule, "3", *column)?;
    }
    Ok(())
}

#[test]
fn keeps_the_rules(rt: HostRuntime) -> Result<(), Fail> {
    bodies_tell(&rt, rt.alloc(), &KEPT)?;
    bodies_tell(&rt, rt.alloc(), &KEPT_TOO)?;
    Ok(())
}

#[test]
fn tells_names(rt: HostRuntime) -> Result<(), Fail> {
    bodies_tell(&rt, rt.alloc(), &UNKNOWN)?;
    bodies_tell(&rt, rt.alloc(), &DECLARED)?;
    Ok(())
}

#[test]
fn tells_types(rt: HostRuntime) -> Result<(), Fail> {
    bodies_tell(&rt, rt.alloc(), &TYPES)?;
    bodies_tell(&rt, rt.alloc(), &TYPES_TOO)?;
    Ok(())
}

#[test]
fn tells_forks_and_results(rt: HostRuntime) -> Result<(), Fail> {
    bodies_tell(&rt, rt.alloc(), &STRUCTS_AND_FORKS)?;
    bodies_tell(&rt, rt.alloc(), &LOOPS)?;
    Ok(())
}

#[test]
fn tells_steps(rt: HostRuntime) -> Result<(), Fail> {
    let alloc = rt.alloc();
    bodies_tell(&rt, alloc, &STEPS)?;
    for (step, rule) in [("4", 0), ("0", 13), ("65537", 13)] {
        let source = joined(alloc, &[BEFORE_STEP, step, BEHIND_STEP])?;
        tells(&rt, alloc, &source, rule, "4", 3)?;
    }
    Ok(())
}

#[test]
fn tells_the_first_broken_rule_of_programs(rt: HostRuntime) -> Result<(), Fail> {
    for (text, rule, column) in PROGRAMS {
        tells(&rt, rt.alloc(), text.as_bytes(), rule, "1", column)?;
    }
    Ok(())
}
